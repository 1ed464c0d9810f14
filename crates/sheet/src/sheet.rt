// Reading a sheet: lines of 41 bytes, four fields and a line end.
ghost use Rattle.std.specs.Prelude.{◌≡◌, ◌*◌, ◌≤◌, length, option_copied};
ghost use Rattle.sheet.specs.Area.{over};
ghost use Rattle.sheet.specs.Sheet.{ended, line, first_malformed, numbers, outcome, SheetRead};
ghost use Rattle.sheet.specs.Answers.{lines_if_lined, malformed_line, told, answered};

use crate::field::read_field;
use engine::state::Outcome;
use reading::node::Node;

// A line's bytes, its end among them.
pub(crate) type Line = [u8; 41];

// Why a sheet is refused, in the order of the tests. A malformed field has its line, counted from 1.
#[derive(Clone, Copy)]
pub(crate) enum Refused {
    Broken,
    Malformed(u32),
    NoRoom,
}

impl From<Refused> for Outcome {
    ghost from_gives = { λ e r. r ≡ outcome (told e) };

    fn from(refused: Refused) -> Outcome {
        let (number, place) = match refused {
            Refused::Broken => (1, 0),
            Refused::Malformed(line) => (2, line),
            Refused::NoRoom => (3, 0),
        };
        Outcome {
            number,
            place,
            count: 0,
        }
    }
}

// Whether each line ends in a line end.
fn all_ended(lines: &[Line]) -> bool
    ensures { result ≡ ended lines.now }
{
    lines.iter().all(|line| line[40] == b'\n')
}

// The first test: some lines, at most 4,096 of them, and none broken.
fn lines(sheet: &[u8]) -> Option<&[Line]>
    ensures { option_copied result ≡ lines_if_lined sheet.now }
{
    let (lines, rest) = sheet.as_chunks::<41>();
    if !rest.is_empty() || lines.is_empty() || 4096 < lines.len() {
        return None;
    }
    if !all_ended(lines) {
        return None;
    }
    Some(lines)
}

// Fields of 4, 12, 12 and 12 columns.
fn read_line(bytes: &Line) -> Option<Node>
    ensures { result ≡ line bytes.now }
{
    Some(Node {
        kind: read_field(&bytes[..4])?,
        a: read_field(&bytes[4..16])?,
        b: read_field(&bytes[16..28])?,
        c: read_field(&bytes[28..40])?,
    })
}

// The second test: the first line with a malformed field, counted from 1.
fn first_malformed(lines: &[Line]) -> Option<u32>
    requires { length lines.now ≤ 4096 }
    ensures { result ≡ malformed_line lines.now }
{
    for (i, line) in lines.iter().enumerate() {
        if read_line(line).is_none() {
            return Some(i as u32 + 1);
        }
    }
    None
}

// The nodes of lines of which none is malformed, at the start of the area.
fn put_nodes(lines: &[Line], nodes: &mut [i32])
    requires room { length lines.now * 4 ≤ length nodes.old }
    requires good { first_malformed 1 lines.now ≡ 0 }
    ensures { nodes.new ≡ over (numbers lines.now) nodes.old }
{
    for (i, line) in lines.iter().enumerate() {
        if let Some(n) = read_line(line) {
            let at = i * 4;
            nodes[at..at + 4].copy_from_slice(&[n.kind, n.a, n.b, n.c]);
        }
    }
}

// The three tests, in order, over the whole sheet, and then the nodes; answers how many. A refusal leaves the area as it was.
fn read_nodes(sheet: &[u8], nodes: &mut [i32]) -> Result<u32, Refused>
    ensures { SheetRead sheet.now nodes.old nodes.new (answered result) }
{
    let lines = lines(sheet).ok_or(Refused::Broken)?;
    if let Some(line) = first_malformed(lines) {
        return Err(Refused::Malformed(line));
    }
    if nodes.len() < lines.len() * 4 {
        return Err(Refused::NoRoom);
    }
    put_nodes(lines, nodes);
    Ok(lines.len() as u32)
}

// Reads a sheet into the node area. A refusal leaves the area as it was.
pub fn read_sheet(sheet: &[u8], nodes: &mut [i32]) -> Outcome
    ensures { SheetRead sheet.now nodes.old nodes.new result }
{
    match read_nodes(sheet, nodes) {
        Ok(count) => Outcome {
            number: 0,
            place: 0,
            count,
        },
        Err(refused) => refused.into(),
    }
}
