// The lines of a text, read one after another.
ghost use Rattle.std.specs.Prelude.{◌≡◌, ◌<◌, ◌-◌, ◌^◌, ◌+◌, ◌++◌, ◌∷◌, [], ℕ, IfOk, IfErr, length};
ghost use Rattle.market_certificate.specs.Due.{Form, HasForm, Takes};
ghost use Rattle.market_certificate.specs.{Finding.OnDefect, Finding.StopsAt, Lines.Lacks};
ghost use Rattle.market_certificate.specs.Tables.{Tables};
ghost use Rattle.market_certificate.specs.declared.refusals.LineFault.TheVariants.{Form as Unformed};
ghost use Rattle.market_certificate.specs.declared.refusals.TextRefusal.TheVariants.{Defect};

use crate::reading::cuts::cut;
use crate::{LineFault, TextRefusal};

/// What is left of a text, and the number of its first line.
#[derive(Clone, Copy)]
pub(crate) struct Lines<'t> {
    pub rest: &'t [u8],
    pub number: u32,
    // The number of each line that is left, and of what stands behind the last one, fits.
    ghost room: { number + length rest.now < 2 ^ 32 },
}

impl<'t> Lines<'t> {
    /// All lines of the text.
    pub fn of(text: &'t [u8]) -> Lines<'t>
        requires { length text.now < 2 ^ 32 - 1 }
        ensures text { result.rest.now ≡ text.now }
        ensures number { result.number ≡ 1 }
    {
        Lines {
            rest: text,
            number: 1,
        }
    }

    /// The next line without its line feed, and what is left behind it.
    pub fn next_line(self) -> Result<(&'t [u8], Lines<'t>), TextRefusal>
        ensures takes { IfOk result
            (λ read. Takes (read.0.now ∷ []) self.entry.number self.entry.rest.now read.1.number
            read.1.rest.now) }
        ensures whole { IfOk result (λ read. Lacks 10 read.0.now) }
        ensures none { IfErr result (λ refusal. Lacks 10 self.entry.rest.now) }
        ensures missing { IfErr result
            (λ refusal. (tables : Tables) (form : Form)
            → OnDefect refusal
            (StopsAt (HasForm tables form) self.entry.number self.entry.rest.now)) }
    {
        match cut(self.rest, b'\n') {
            Some((line, rest)) => Ok((
                line,
                Lines {
                    rest,
                    number: self.number + 1,
                },
            )),
            None => Err(TextRefusal::Defect {
                line: self.number,
                kind: LineFault::Missing,
            }),
        }
    }

    /// The refusal of the next line, which is not of the form that is due.
    pub fn out_of_form(self) -> TextRefusal
        ensures { result ≡ Defect self.entry.number Unformed }
    {
        TextRefusal::Defect {
            line: self.number,
            kind: LineFault::Form,
        }
    }
}
