// What is printed, and whether all of it agrees so far.
use std::alloc::Global;
use std::{fmt, io};

#[derive(Drop)]
pub(crate) struct Report<'a> {
    rt: &'a HostRuntime,
    agreed: bool,
}

impl<'a> Report<'a> {
    pub(crate) fn new(rt: &'a HostRuntime) -> Report<'a> {
        Report { rt, agreed: true }
    }

    pub(crate) fn heap(&self) -> Global {
        self.rt.alloc()
    }

    pub(crate) fn agrees(&self) -> bool {
        self.agreed
    }

    // A line that says what comes next.
    pub(crate) fn heading(&self, line: impl fmt::Display + Drop) -> io::Result<()> {
        self.rt.println(line)
    }

    // A line that ends with the verdict.
    pub(crate) fn verdict(&mut self, line: impl fmt::Display + Drop, same: bool) -> io::Result<()> {
        self.agreed &= same;
        let verdict = if same { "agrees" } else { "differs" };
        println!(self.rt; "  {line}: {verdict}")
    }
}
