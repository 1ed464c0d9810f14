// A case: its name, node lines, text, settings and literals, with colons between them.
ghost use Rattle.std.specs.Prelude.{◌≤◌};

use crate::digits::{exact, written};
use crate::nodes::put_all;
use crate::show::Area;
use engine::state::{RunOutcome, run};
use std::io;

#[derive(Clone, Copy)]
pub(crate) struct Case<'a> {
    name: &'a [u8],
    lines: &'a [u8],
    text: &'a [u8],
    settings: &'a [u8],
    literals: &'a [u8],
}

// The length that is written, or another; that of the area where it has no more.
fn length_or(digits: Option<&[u8]>, other: usize, area: usize) -> usize
    ensures { result ≤ area }
{
    written(digits).map_or(other, |n| n as usize).min(area)
}

// Letters over and over. Where there are none, what stands there stays.
fn repeat(letters: &[u8], text: &mut [u8]) {
    for (place, letter) in text.iter_mut().zip(letters.iter().cycle()) {
        *place = *letter;
    }
}

impl<'a> Case<'a> {
    // `abc` stands for literals that are not written.
    pub(crate) fn of(line: &'a [u8]) -> Self {
        let mut parts = line.split(|b| *b == b':');
        Case {
            name: parts.next().unwrap_or(b""),
            lines: parts.next().unwrap_or(b""),
            text: parts.next().unwrap_or(b""),
            settings: parts.next().unwrap_or(b""),
            literals: match parts.next() {
                None | Some([]) => b"abc",
                Some(letters) => letters,
            },
        }
    }

    // The settings, with commas between them: the depth limit, the call limit, the lengths of tokens, report and scratch, those of text and
    // literals, whose letters are then written over and over, that of the nodes, and the root line.
    // The areas are full of nines before the run, so that what it writes is seen. The counted calls stand behind the semicolon.
    pub(crate) fn run(self, rt: &impl Print) -> io::Result<()> {
        let mut tokens = [9u32; 40];
        let mut report = [9u32; 516];
        let mut scratch = [9u32; 4864];
        let mut text = [0u8; 65536];
        let mut literals = [0u8; 65536];
        let mut nodes = [[0i32; 4]; 4097];
        let mut settings = self.settings.split(|b| *b == b',');
        let depth_limit = written(settings.next()).unwrap_or(1024);
        let call_limit = written(settings.next()).unwrap_or(0);
        let tokens = &mut tokens[..length_or(settings.next(), 12, 40)];
        let report = &mut report[..length_or(settings.next(), 516, 516)];
        let scratch = &mut scratch[..length_or(settings.next(), 4864, 4864)];
        let text = &mut text[..length_or(settings.next(), self.text.len(), 65536)];
        repeat(self.text, text);
        let literals = &mut literals[..length_or(settings.next(), self.literals.len(), 65536)];
        repeat(self.literals, literals);
        let lines = put_all(&mut nodes, self.lines);
        let nodes = nodes.as_flattened();
        let nodes = &nodes[..length_or(settings.next(), lines as usize * 4, 16388)];
        let last_line = u32::try_from(nodes.len() / 4).unwrap_or(u32::MAX);
        let root = exact(settings.next()).unwrap_or(last_line);
        let RunOutcome { outcome, calls } = run(
            nodes,
            literals,
            text,
            root,
            depth_limit,
            call_limit,
            tokens,
            report,
            scratch,
        );
        rt.write_all(self.name)?;
        println!(rt;
            ": {} {} {}; {calls} |{} |{}",
            outcome.number,
            outcome.place,
            outcome.count,
            Area(tokens),
            Area(report)
        )
    }
}
