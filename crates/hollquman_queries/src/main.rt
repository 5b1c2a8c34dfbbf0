// hollquman_queries reads a script about picture formats and the steps between them, and prints in words what each command did.
#![tactic(auto)]

use scripts::{Session, Vocabulary};

// Networks are also sealed, traced and queried.
fn main(rt: HostRuntime) -> anyhow::Result<()> {
    scripts::run(&rt, &mut Session::new(rt.alloc(), Vocabulary::Asking))
}
