ghost use Rattle.std.specs.Prelude.{◌≡◌, ℕ, ◌<◌, List, IfOk, codes, OnSome};
ghost use Rattle.text.specs.Grammar.{Form, done, ask, number_then, form_of, list_form};
ghost use Rattle.text.specs.Lines.{lines};
ghost use Rattle.text.specs.Progress.{to_read, followed_by, Stays, left};
ghost use Rattle.text.specs.Readings.{start, read, length_check};
ghost use Rattle.text.specs.Steps.{onward_from, went, lined, Advanced};

use crate::faults::{Cause, ReadFault};
use crate::lines::line_end;
use crate::names::CallName;
use crate::numbers::number;
use crate::reader::Reader;
use rules::calls::Call;

/// The longest script that is read, in bytes.
pub const LONGEST: usize = 16_384;

/// Refuses a script that is too long.
pub fn check_length(script: &[u8]) -> Result<(), ReadFault>
    ensures { result ≡ length_check script.now }
{
    if script.len() > LONGEST {
        return Err(ReadFault {
            cause: Cause::TooLong,
            line: 0,
        });
    }
    Ok(())
}

impl<'a> Reader<'a> {
    /// A reader at the beginning of a script.
    pub fn new(script: &'a [u8]) -> Reader<'a>
        ensures { to_read result start ≡ read (lines script.now) 0 start }
    {
        Reader {
            text: script,
            at: 0,
            line: 0,
        }
    }

    /// The next call, or none at the end of the script. At the end and at a fault the reader stays where it was, so
    /// that asking again gives the same.
    #[tactic(auto, using(crate::proofs::Steps::started))]
    pub fn next_call(&mut self) -> Result<Option<Call>, ReadFault>
        ensures reads { to_read self.old start ≡ followed_by result (to_read self.new start) }
        ensures stays { Stays result (to_read self.old start) (to_read self.new start) }
        ensures advanced { IfOk result (λ o. OnSome o (left self.new < left self.old)) }
    {
        if self.at == self.text.len() {
            return Ok(None);
        }
        let before = *self;
        match self.call() {
            Ok(call) => Ok(Some(call)),
            Err(fault) => {
                *self = before;
                Err(fault)
            }
        }
    }

    /// A call, from the line that names it on.
    fn call(&mut self) -> Result<Call, ReadFault>
        ensures reads { onward_from self.old (ask (codes "call=") form_of) ≡ went result done self.new }
        ensures advanced { Advanced result self.old self.new }
    {
        let value = self.value(b"call=")?;
        match CallName::try_from(value) {
            Ok(CallName::List) => self.list(),
            Err(cause) => Err(self.fault(cause)),
        }
    }

    /// A fault in the line just read.
    fn fault(&self, cause: Cause) -> ReadFault
        ensures { result ≡ record { cause = cause; line = self.now.line } }
    {
        ReadFault {
            cause,
            line: self.line,
        }
    }

    /// The next line, without its end.
    fn next_line(&mut self) -> Result<&'a [u8], ReadFault>
        ensures reads { (front : List ℕ) (next : List ℕ → Form) → onward_from self.old (ask front next) ≡ lined result front next self.new }
        ensures advanced { Advanced result self.old self.new }
    {
        let text = self.text;
        let rest = &text[self.at..];
        match line_end(rest) {
            Some(end) => {
                self.at += end + 1;
                self.line += 1;
                Ok(&rest[..end])
            }
            None if rest.is_empty() => Err(self.fault(Cause::Unfinished)),
            None => Err(ReadFault {
                cause: Cause::Unfinished,
                line: self.line + 1,
            }),
        }
    }

    /// The value of the next line, which has to begin with `front`.
    #[tactic(auto, using(crate::proofs::Fronts::behind_by))]
    fn value(&mut self, front: &[u8]) -> Result<&'a [u8], ReadFault>
        ensures reads { (next : List ℕ → Form) → onward_from self.old (ask front.now next) ≡ went result (λ v. next v.now) self.new }
        ensures advanced { Advanced result self.old self.new }
    {
        let line = self.next_line()?;
        line.strip_prefix(front).ok_or(self.fault(Cause::Key))
    }

    /// The number on the next line, which has to begin with `front`.
    fn number(&mut self, front: &[u8]) -> Result<u32, ReadFault>
        ensures reads { (next : ℕ → Form) → onward_from self.old (ask front.now (number_then next)) ≡ went result next self.new }
        ensures advanced { Advanced result self.old self.new }
    {
        let value = self.value(front)?;
        number(value).ok_or(self.fault(Cause::Value))
    }

    /// The keys of list.
    fn list(&mut self) -> Result<Call, ReadFault>
        ensures reads { onward_from self.old list_form ≡ went result done self.new }
        ensures advanced { Advanced result self.old self.new }
    {
        let security = self.number(b"sec=")?;
        Ok(Call::List { security })
    }
}
