// What was done and what came of it, in words.
use std::fmt;
use tip_array::calls::{Answer, Call, Checks, Outcome};
use tip_element::word::Word;

/// A call that was made on the one stripe, and its outcome.
#[derive(Clone, Copy)]
pub struct Told {
    pub call: Call<Word>,
    pub outcome: Outcome<Word>,
}

/// How many strips are out, as "1 strip is out".
#[derive(Clone, Copy)]
pub struct StripsOut(pub usize);

/// Numbers in a row, as "1 2 3".
#[derive(Clone, Copy)]
pub struct Numbers<'a>(pub &'a [Word]);

impl fmt::Display for StripsOut {
    fn fmt<W: fmt::Write>(&self, f: &mut fmt::Formatter<W>) -> fmt::Result {
        match self.0 {
            1 => f.write_str("1 strip is out"),
            count => write!(f, "{count} strips are out"),
        }
    }
}

impl fmt::Display for Numbers<'_> {
    fn fmt<W: fmt::Write>(&self, f: &mut fmt::Formatter<W>) -> fmt::Result {
        let mut separator = "";
        for Word(number) in self.0 {
            write!(f, "{separator}{number}")?;
            separator = " ";
        }
        Ok(())
    }
}

/// What was to be done.
fn write_call<W: fmt::Write>(call: Call<Word>, f: &mut fmt::Formatter<W>) -> fmt::Result {
    match call {
        Call::Read { place, .. } => write!(f, "read place {place}"),
        Call::Write {
            place,
            element: Word(number),
            ..
        } => write!(f, "write place {place} := {number}"),
        Call::Rebuild { stripe } => write!(f, "rebuild stripe {stripe}"),
        Call::Check { stripe } => write!(f, "check stripe {stripe}"),
        Call::Pull { device } => write!(f, "pull device {device}"),
        Call::Fit { device } => write!(f, "fit device {device}"),
    }
}

/// What was answered.
fn write_answer<W: fmt::Write>(answer: Answer<Word>, f: &mut fmt::Formatter<W>) -> fmt::Result {
    match answer {
        Answer::Read(Word(number)) => write!(f, "{number}"),
        Answer::Written(out) => write!(f, "{}", StripsOut(out)),
        Answer::Rebuilt(count) => write!(f, "{count} strips were blank and are held"),
        Answer::Checked(Checks { whole, failing }) => {
            write!(f, "{whole} chains are whole, {failing} of them fail")
        }
        Answer::Pulled => f.write_str("done"),
        Answer::Fitted(true) => f.write_str("yes"),
        Answer::Fitted(false) => f.write_str("no"),
    }
}

/// As "write place 4 := 0: 3 strips are out".
impl fmt::Display for Told {
    fn fmt<W: fmt::Write>(&self, f: &mut fmt::Formatter<W>) -> fmt::Result {
        write_call(self.call, f)?;
        f.write_str(": ")?;
        match self.outcome {
            Ok(answer) => write_answer(answer, f),
            Err(stop) => write!(f, "refused, {stop}"),
        }
    }
}
