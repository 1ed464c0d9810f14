// An area whole, as text, where more than three equal numbers in a row are written once, with their count behind (`0*516`).
use std::fmt;

#[derive(Clone, Copy)]
pub(crate) struct Area<'a>(pub(crate) &'a [u32]);

impl fmt::Display for Area<'_> {
    fn fmt<W: fmt::Write>(&self, f: &mut fmt::Formatter<W>) -> fmt::Result {
        for equal in self.0.chunk_by(|x, y| x == y) {
            match equal {
                [n, _, _, _, ..] => write!(f, " {n}*{}", equal.len())?,
                few => {
                    for n in few {
                        write!(f, " {n}")?;
                    }
                }
            }
        }
        Ok(())
    }
}
