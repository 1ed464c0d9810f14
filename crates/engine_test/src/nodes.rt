// Nodes from text: kind, a, b, c with commas between them, lines with a space between them, zeros at a line's end left out. A fifth number
// n stands for n such lines, whose a goes up by one from each to the next, and with a sixth number their b too.
use crate::digits::{number, written};

// A field, which is 0 where it is empty. One below 0 begins with a minus; the cases need none below -3.
fn field(digits: &[u8]) -> i32 {
    match digits {
        [b'-', digits @ ..] => match number(digits) {
            1 => -1,
            2 => -2,
            _ => -3,
        },
        digits => i32::try_from(number(digits)).unwrap_or(0),
    }
}

// A field that goes up; one below 0 stays.
fn raised(n: i32, by: u32) -> i32 {
    if n < 0 {
        n
    } else {
        n.saturating_add_unsigned(by)
    }
}

// The index so many lines behind another; behind an index above a million it is 0.
fn index_behind(index: u32, lines: u32) -> u32 {
    if index > 1000000 {
        0
    } else {
        index.saturating_add(lines)
    }
}

// The lines that one stands for, from an index on, and the index behind them. What the area has no room for is left out.
fn put_lines(nodes: &mut [[i32; 4]], from: u32, line: &[u8]) -> u32 {
    let mut fields = line.split(|b| *b == b',');
    let [kind, a, b, c] = [0; 4].map(|zero| fields.next().map_or(zero, field));
    let times = written(fields.next()).unwrap_or(1);
    let b_goes_up = written(fields.next()).is_some();
    for i in 0..times {
        let b = if b_goes_up { raised(b, i) } else { b };
        if let Some(node) = nodes.get_mut(index_behind(from, i) as usize) {
            *node = [kind, raised(a, i), b, c];
        }
    }
    index_behind(from, times)
}

// All lines, from the area's first, and how many they are. An empty text has none.
pub(crate) fn put_all(nodes: &mut [[i32; 4]], lines: &[u8]) -> u32 {
    if lines.is_empty() {
        return 0;
    }
    let mut index = 0;
    for line in lines.split(|b| *b == b' ') {
        index = put_lines(nodes, index, line);
    }
    index
}
