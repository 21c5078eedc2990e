// The finder for C: the face of finder, as an archive that C links.
// Each calls the function of its name there, and promises the same.
#![tactic(auto)]

ghost use Rattle.std.specs.Prelude.{◌≡◌};
ghost use Rattle.finder.specs.Finder.{finding};
ghost use Rattle.finder.specs.Numbers.{find_numbers};

use finder::FindNumbers;

// What `find` finds, for C.
#[unsafe(no_mangle)]
pub extern "C" fn nadrelgos_find(ours: u8, bytes: &[u8], budget: usize) -> FindNumbers
    ensures { result ≡ find_numbers (finding ours bytes.now budget) }
{
    finder::nadrelgos_find(ours, bytes, budget)
}
