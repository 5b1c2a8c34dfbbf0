// What a script has set so far, and what each command does and prints.
use crate::command::Command;
use crate::current::Network;
use crate::fault::Fault;
use crate::listing;
use crate::readings::Readings;
use crate::rooms::Rooms;
use refusals::Buffer;
use std::alloc::Global;
use std::fmt::Write;

// A reading in each algebra, and the network that is open.
#[derive(Drop)]
pub(crate) struct House {
    readings: Readings,
    network: Network,
}

impl House {
    // No network is open yet, and buffers are made this long.
    pub(crate) fn new(heap: Global, rooms: Rooms) -> House {
        House {
            readings: Readings::new(heap),
            network: Network::closed(heap, rooms),
        }
    }

    fn set_modulus(&mut self, out: &mut String, modulus: u64) -> Result<(), Fault> {
        self.readings.set_modulus(modulus)?;
        Ok(writeln!(out, "modulus: {modulus}")?)
    }

    fn chain(&self, out: &mut String, steps: &[u8]) -> Result<(), Fault> {
        write!(out, "chain")?;
        for step in steps {
            write!(out, " {step}")?;
        }
        writeln!(out)?;
        Ok(self.readings.appraise(out, steps)?)
    }

    fn room(&mut self, out: &mut String, buffer: Buffer, length: usize) -> Result<(), Fault> {
        self.network.set_room(buffer, length);
        Ok(writeln!(out, "room: {buffer} {length}")?)
    }

    // A new network in place of the one that is open, unless it is refused.
    fn open(&mut self, out: &mut String, formats: usize) -> Result<(), Fault> {
        self.network.open(formats)?;
        self.readings.forget();
        Ok(writeln!(out, "open: {formats} formats")?)
    }

    fn add(&mut self, out: &mut String, from: usize, to: usize) -> Result<(), Fault> {
        let step = self.network.add(from, to)?;
        Ok(writeln!(out, "add: step {step} from {from} to {to}")?)
    }

    fn retire(&mut self, out: &mut String, step: usize) -> Result<(), Fault> {
        self.network.retire(step)?;
        Ok(writeln!(out, "retire: step {step}")?)
    }

    fn restore(&mut self, out: &mut String, step: usize) -> Result<(), Fault> {
        self.network.restore(step)?;
        Ok(writeln!(out, "restore: step {step}")?)
    }

    fn seal(&mut self, out: &mut String) -> Result<(), Fault> {
        let (components, records) = self.network.seal()?;
        Ok(writeln!(out, "seal: components {components}, records {records}")?)
    }

    fn reopen(&mut self, out: &mut String) -> Result<(), Fault> {
        self.network.reopen()?;
        Ok(writeln!(out, "reopen: draft")?)
    }

    fn size(&self, out: &mut String) -> Result<(), Fault> {
        let (components, records) = self.network.size()?;
        Ok(writeln!(out, "size: components {components}, records {records}")?)
    }

    fn trace(&mut self, out: &mut String, source: usize) -> Result<(), Fault> {
        let row = self.network.trace(source)?;
        write!(out, "trace from {source}:")?;
        Ok(listing::numbers(out, row.as_slice())?)
    }

    // Carries out a command, and writes what there is to print into `out`.
    pub(crate) fn carry_out(&mut self, out: &mut String, command: Command) -> Result<(), Fault> {
        match command {
            Command::Help(vocabulary) => Ok(vocabulary.list(out)?),
            Command::Modulus(modulus) => self.set_modulus(out, modulus),
            Command::Weigh(step, weight) => Ok(self.readings.weigh(out, step, weight)?),
            Command::Chain(steps) => self.chain(out, steps.as_slice()),
            Command::Room(buffer, length) => self.room(out, buffer, length),
            Command::Open(formats) => self.open(out, formats),
            Command::Add(from, to) => self.add(out, from, to),
            Command::Retire(step) => self.retire(out, step),
            Command::Restore(step) => self.restore(out, step),
            Command::Steps => Ok(listing::steps(out, self.network.steps()?)?),
            Command::Seal => self.seal(out),
            Command::Reopen => self.reopen(out),
            Command::Size => self.size(out),
            Command::Records => Ok(listing::records(out, self.network.records()?)?),
            Command::Plan => Ok(listing::plan(out, self.network.plan()?)?),
            Command::Trace(source) => self.trace(out, source),
            Command::Query(algebra, source) => {
                self.readings.query(out, &mut self.network, algebra, source)
            }
        }
    }
}
