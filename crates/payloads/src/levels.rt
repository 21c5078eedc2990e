// The levels of a line that wraps: five numbers each.
use encapsulation::{Level, MOST};
use script::Line;

// CODE OPERAND OPERAND OPERAND PACKET
fn read_level(line: &mut Line<'_>) -> Option<Level> {
    Some(Level {
        code: line.byte()?,
        operand1: line.byte()?,
        operand2: line.byte()?,
        operand3: line.byte()?,
        packet: line.byte()?,
    })
}

// So many levels, of which the first four are kept; one that is none ends the reading, however many are said to follow.
pub(crate) fn read_levels(line: &mut Line<'_>, depth: usize) -> Option<[Level; MOST]> {
    let mut levels = [Level::default(); MOST];
    // The levels go on past those that are kept, so that no loop over their places fits.
    for i in 0..depth {
        let level = read_level(line)?;
        if let Some(place) = levels.get_mut(i) {
            *place = level;
        }
    }
    Some(levels)
}
