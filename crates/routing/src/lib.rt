// Where a request goes. The send method says how to read parameter 1: as a control command, a node type or a socket.
#![tactic(auto)]

ghost use Rattle.std.specs.Prelude.{◌≡◌, ◌<◌, unwrap_or, IfSome};
ghost use Rattle.board.specs.declared.Wanted.TheVariants.{Kind};
ghost use Rattle.board.specs.Columns.{typed};
ghost use Rattle.board.specs.Wanted.{lowest_of};
ghost use Rattle.routing.specs.Priority.{priority_list};
ghost use Rattle.routing.specs.Route.{priority_kind, at_socket, named_position, route_of};

use board::Wanted;

// The node types that Table 3 names, by its own abbreviations: furnace control, air handler, air conditioner, heat pump,
// crossover device, zone controller; and its dash, which is no type.
const IFC: u8 = 2;

const AH: u8 = 3;

const AC: u8 = 4;

const HP: u8 = 5;

const XOVER: u8 = 9;

const ZC: u8 = 21;

const DASH: u8 = 0;

// Table 3: the priority list of each control command.
const HEAT: [u8; 5] = [ZC, HP, IFC, XOVER, AH];

const COOL: [u8; 5] = [ZC, HP, AC, XOVER, IFC];

const FAN: [u8; 5] = [ZC, AH, IFC, XOVER, DASH];

const EMERGENCY: [u8; 5] = [ZC, AH, IFC, XOVER, DASH];

const DEFROST: [u8; 5] = [ZC, AH, IFC, XOVER, DASH];

const AUX_HEAT: [u8; 5] = [ZC, AH, IFC, XOVER, DASH];

const NO_LIST: [u8; 5] = [DASH, DASH, DASH, DASH, DASH];

// The priority list of a control command code; a code that has no row has a row of dashes, as the definition gives it.
#[tactic(auto, unfolding(crate::specs::Priority::priority_list, ground::specs::Choose::choose))]
fn priority_list(code: u8) -> [u8; 5]
    ensures { result ≡ priority_list code }
{
    match code {
        100 => HEAT,
        101 => COOL,
        102 => FAN,
        103 => EMERGENCY,
        104 => DEFROST,
        105 => AUX_HEAT,
        _ => NO_LIST,
    }
}

// The lowest of k positions at which a board of a type is listed.
fn lowest_of_kind(kinds: &[u8; 40], k: usize, kind: u8) -> Option<usize>
    ensures position { unwrap_or result 0 ≡ lowest_of (typed kinds.now) (Kind kind) k }
    ensures found { IfSome result (λ p. 0 < p) }
{
    Some(board::lowest(kinds, Wanted::Kind(kind), k)).filter(|position| 0 < *position)
}

// The first type of a control command's priority list of which a board is listed.
fn priority_kind(kinds: &[u8; 40], k: usize, code: u8) -> Option<u8>
    ensures { unwrap_or result 0 ≡ priority_kind (typed kinds.now) k code }
{
    priority_list(code)
        .iter()
        .find(|kind| lowest_of_kind(kinds, k, **kind).is_some())
        .copied()
}

// A socket's position, where a board is listed there.
#[tactic(auto, unfolding(crate::specs::Route::at_socket, ground::specs::Choose::choose))]
fn at_socket(kinds: &[u8; 40], k: usize, position: usize) -> Option<usize>
    ensures { unwrap_or result 0 ≡ at_socket (typed kinds.now) k position }
{
    Some(position).filter(|p| 0 < *p && *p <= k && board::listed_at(kinds, *p))
}

// The position that a method and parameter 1 name. A method is the header's number, of which three name a board.
#[tactic(auto, unfolding(crate::specs::Route::named_position, ground::specs::Choose::choose))]
fn named_position(kinds: &[u8; 40], k: usize, method: u8, parameter: u8) -> Option<usize>
    ensures { unwrap_or result 0 ≡ named_position (typed kinds.now) k method parameter }
{
    match method {
        1 => lowest_of_kind(kinds, k, priority_kind(kinds, k, parameter)?),
        2 => lowest_of_kind(kinds, k, parameter),
        3 => at_socket(kinds, k, usize::from(parameter)),
        _ => None,
    }
}

// Where the request of a sender goes, of k positions; 0, which is nobody's position, where it is discarded.
#[tactic(auto, unfolding(crate::specs::Route::route_of, ground::specs::Choose::choose))]
pub fn route(kinds: &[u8; 40], k: usize, sender: usize, method: u8, parameter: u8) -> usize
    ensures { result ≡ route_of (typed kinds.now) k sender method parameter }
{
    named_position(kinds, k, method, parameter)
        .filter(|to| *to != sender)
        .unwrap_or(0)
}
