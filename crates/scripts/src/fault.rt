// Why a command was not carried out.
use refusals::Refusal;
use std::alloc::AllocError;
use std::fmt::Write;
use thiserror::Error;

#[derive(Debug, Drop, Error)]
pub(crate) enum Fault {
    // The engine refused it.
    #[error(transparent)]
    Refused(#[from] Refusal),
    // It needs a network, and none is open.
    #[error("no network is open")]
    NotOpen,
    // It needs a draft, and the network is sealed.
    #[error("the network is sealed, reopen it first")]
    IsSealed,
    // It needs a sealed network, and the network is a draft.
    #[error("the network is a draft, seal it first")]
    IsDraft,
    // The program can't go on.
    #[error(transparent)]
    OutOfMemory(#[from(alloc)] AllocError),
}

// `COMMAND refused NUMBER: words`, or with the value that came beside the number.
fn tell_refusal(out: &mut String, command: &str, refusal: Refusal) -> Result<(), AllocError> {
    let number = refusal.number();
    match refusal.value() {
        Some(value) => writeln!(out, "{command} refused {number} {value}: {refusal}"),
        None => writeln!(out, "{command} refused {number}: {refusal}"),
    }
}

impl Fault {
    // Says why the command was not carried out. What the program cannot go on from is handed on.
    pub(crate) fn tell(self, out: &mut String, command: &str) -> Result<(), AllocError> {
        match self {
            Fault::Refused(refusal) => tell_refusal(out, command, refusal),
            Fault::OutOfMemory(error) => Err(error),
            fault => writeln!(out, "{command}: {fault}"),
        }
    }
}
