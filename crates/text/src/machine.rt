// How the engine's answers, the states of a core and the token are written.
ghost use Rattle.std.specs.Prelude.{Some};
ghost use Rattle.text.specs.Machines.{answer_text, state_text, token_text};

use crate::show::Shown;
use formats::answer::Answer;
use model::state::{State, Token};
use std::fmt;

// What a step answers.
impl fmt::Display for Shown<Answer> {
    ghost output = { λ a. Some (answer_text a.0) };

    fn fmt<W: fmt::Write>(&self, f: &mut fmt::Formatter<W>) -> fmt::Result {
        let name = match self.0 {
            Answer::Running => "running",
            Answer::Waiting => "waiting",
            Answer::Done => "done",
            Answer::Committing => "committing",
            Answer::Early => "early",
            Answer::Full => "full",
            Answer::Stopped => "stopped",
            Answer::RolledBack => "rolled back",
            Answer::Retried => "retried",
            Answer::Faulted { fault, pc } => {
                return write!(f, "faulted {} at {pc}", fault.number());
            }
        };
        f.write_str(name)
    }
}

// The state of a core, in capitals.
impl fmt::Display for Shown<State> {
    ghost output = { λ s. Some (state_text s.0) };

    fn fmt<W: fmt::Write>(&self, f: &mut fmt::Formatter<W>) -> fmt::Result {
        f.write_str(match self.0 {
            State::Bypass => "BYPASS",
            State::Transaction => "TRANSACTION",
            State::Commit => "COMMIT",
            State::Abort => "ABORT",
            State::EarlyFlush => "EARLY_FLUSH",
            State::EarlyCommit => "EARLY_COMMIT",
            State::Stopped => "STOPPED",
        })
    }
}

// Who has the token.
impl fmt::Display for Shown<Token> {
    ghost output = { λ t. Some (token_text t.0) };

    fn fmt<W: fmt::Write>(&self, f: &mut fmt::Formatter<W>) -> fmt::Result {
        match self.0 {
            Token::Free => f.write_str("free"),
            Token::Core(i) => write!(f, "core {i}"),
            Token::Host => f.write_str("host"),
        }
    }
}
