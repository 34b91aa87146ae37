ghost use Rattle.std.specs.Prelude.{◌≡◌, Some};
ghost use Rattle.text.specs.Faults.{number};

use std::fmt;

/// What is wrong with a script, with the number by which a listing prints it.
#[derive(Clone, Copy)]
pub enum Cause {
    /// It is longer than 16,384 bytes.
    TooLong = 40,
    /// A line has not the key due there, or names no call.
    Key = 41,
    /// A value is malformed.
    Value = 42,
    /// It ends inside a call or a line.
    Unfinished = 43,
}

impl From<Cause> for u32 {
    ghost from_gives = { λ cause r. r ≡ number cause };

    fn from(cause: Cause) -> u32 {
        cause as u32
    }
}

/// Where reading a script ended, and why. Lines count from 1; line 0 is the script as a whole.
#[derive(Clone, Copy)]
pub struct ReadFault {
    pub cause: Cause,
    pub line: usize,
}

impl fmt::Display for ReadFault {
    ghost use Rattle.text.specs.Listings.{fault_text};

    ghost output = { λ fault. Some (fault_text fault) };

    fn fmt<W: fmt::Write>(&self, f: &mut fmt::Formatter<W>) -> fmt::Result {
        let number = u32::from(self.cause);
        let line = self.line;
        writeln!(f, "fault={number}\nline={line}")
    }
}
