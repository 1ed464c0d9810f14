// A record of the list: a case, and the answer that is recorded.
use crate::answer::{Answer, Difference, FILL, Numbers};
use crate::words::{Fault, Input, Words};
use engine::state::run;
use std::alloc::{AllocError, Global};

// The lengths of the areas.
#[derive(Clone, Copy)]
struct Lengths {
    tokens: usize,
    report: usize,
    scratch: usize,
}

// The row that a record begins with: rust/README.md has the table.
#[derive(Clone, Copy)]
struct Head {
    running: u32,
    numbers: Numbers,
    root: u32,
    depth_limit: u32,
    call_limit: u32,
    areas: Lengths,
    nodes: Input,
    literals: Input,
    text: Input,
    positives: u32,
    negatives: u32,
}

// What a record has before its lists.
#[derive(Drop)]
struct Case {
    head: Head,
    nodes: Vec<i32>,
    literals: Vec<u8>,
    text: Vec<u8>,
}

impl Head {
    fn of(words: &mut Words<'_>) -> Self {
        Head {
            running: words.number(),
            numbers: Numbers {
                number: words.number(),
                place: words.number(),
                count: words.number(),
                calls: u64::from(words.long()),
            },
            root: words.long(),
            depth_limit: words.long(),
            call_limit: words.long(),
            areas: Lengths {
                tokens: words.length(),
                report: words.length(),
                scratch: words.length(),
            },
            nodes: Input {
                given: words.length(),
                length: words.length(),
            },
            literals: Input {
                given: words.length(),
                length: words.long() as usize,
            },
            text: Input {
                given: words.length(),
                length: words.long() as usize,
            },
            positives: words.number(),
            negatives: words.number(),
        }
    }

    // No record takes more memory than these lengths, whatever it says.
    fn has_room(self) -> bool {
        self.nodes.length <= 16388
            && self.literals.length <= 65536
            && self.text.length <= 65536
            && self.areas.tokens <= 10240
            && self.areas.report <= 524
            && self.areas.scratch <= 4873
    }

    // Five words a token.
    fn tokens(self, alloc: Global, lists: &Words<'_>) -> Result<Vec<u32>, AllocError> {
        let listed = self.numbers.count.saturating_mul(5) as usize;
        lists.numbers(alloc, listed.min(self.areas.tokens))
    }

    // Furthest position, two counts, positives, negatives.
    fn report(self, alloc: Global, lists: &Words<'_>) -> Result<Vec<u32>, AllocError> {
        let counts = [self.numbers.place, self.positives, self.negatives];
        let listed = self.positives.saturating_add(self.negatives) as usize;
        let rules = lists.numbers(alloc, listed.min(self.areas.report))?;
        [counts.as_slice(), rules.as_slice()].concat(alloc)
    }

    // What both areas hold after the run follows from the number and the lists that end the record.
    fn answer(self, alloc: Global, lists: &Words<'_>) -> Result<Answer, AllocError> {
        let none = Vec::new(alloc);
        let (mut tokens, mut report) = match self.numbers.number {
            0 => (self.tokens(alloc, lists)?, none),
            10 => (none, self.report(alloc, lists)?),
            _ => (none, Vec::new(alloc)),
        };
        let rest = if self.numbers.is_refusal() { FILL } else { 0 };
        tokens.resize(self.areas.tokens, rest)?;
        report.resize(self.areas.report, rest)?;
        Ok(Answer {
            numbers: self.numbers,
            tokens,
            report,
        })
    }
}

impl Case {
    fn of(alloc: Global, words: &mut Words<'_>) -> Result<Self, Fault> {
        let bytes = words.0.len();
        if words.length() * 2 != bytes {
            return Err(Fault::NotWhole);
        }
        let head = Head::of(words);
        if !head.has_room() {
            return Err(Fault::NoRoom(head.running));
        }
        Ok(Case {
            nodes: words.nodes(alloc, head.nodes)?,
            literals: words.bytes(alloc, head.literals)?,
            text: words.bytes(alloc, head.text)?,
            head,
        })
    }

    // Runs the case, in areas of just its lengths.
    fn run(self, alloc: Global) -> Result<Answer, AllocError> {
        let lengths = self.head.areas;
        let mut tokens = vec![in alloc; FILL; lengths.tokens]?;
        let mut report = vec![in alloc; FILL; lengths.report]?;
        let mut scratch = vec![in alloc; 0; lengths.scratch]?;
        let outcome = run(
            self.nodes.as_slice(),
            self.literals.as_slice(),
            self.text.as_slice(),
            self.head.root,
            self.head.depth_limit,
            self.head.call_limit,
            tokens.as_mut_slice(),
            report.as_mut_slice(),
            scratch.as_mut_slice(),
        );
        Ok(Answer {
            numbers: outcome.into(),
            tokens,
            report,
        })
    }
}

// Runs a recorded case and holds what came against what is recorded: the lists are read when the inputs are gone.
pub(crate) fn replay(alloc: Global, record: &[u8]) -> Result<(), Fault> {
    let mut words = Words(record);
    let case = Case::of(alloc, &mut words)?;
    let head = case.head;
    let came = case.run(alloc)?;
    if came == head.answer(alloc, &words)? {
        return Ok(());
    }
    Err(Fault::Differs(Difference {
        running: head.running,
        recorded: head.numbers,
        came: came.numbers,
    }))
}
