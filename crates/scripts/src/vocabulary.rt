// Which commands a script may use.
use crate::rooms::Rooms;
use std::alloc::AllocError;

// Some commands or all of them.
#[derive(Clone, Copy, PartialEq, Eq, Debug)]
pub enum Vocabulary {
    // Drawing networks and appraising chains.
    Drawing,
    // The same, and sealing networks and asking what their routes come to.
    Asking,
}

const APPRAISING: &str = "\
commands, one to a line, `#` begins a comment:
  help                     this list
  modulus M                sets the modulus for phase, 1 to 60 (24 until then)
  weigh J ALGEBRA VALUE    sets the weight of step J (0 to 255) in one algebra:
                             reach   yes or no
                             cost    render seconds, 0 to 4294967295 (which stands for no route)
                             depth   bits that survive, 0 to 255
                             marks   none, or SETS/PASSES, as 0x1/0xfe
                             phase   phases with commas between, as 0,3, or - for no phase
  chain J J ..             what the steps, taken in that order, come to in each algebra
";

const LENDING: &str = "  \
  room BUFFER LENGTH       how long a buffer is made from then on: steps, records and heads at the next open,
                             row, weights, memo and answers at each call
";

const DRAWING: &str = "  \
  open N                   a new network of N formats, 1 to 32, in place of the one that is open; every weight is one again
  add F T                  a step from format F to format T
  retire J                 takes step J out of force
  restore J                puts step J in force again
  steps                    the steps of the network
";

const ASKING: &str = "  \
  seal                     works out the plan of the network, which is not drawn on until it is reopened
  reopen                   makes a sealed network a draft again
  size                     how many components and records the sealed network has
  records                  its records, one path expression each
  plan                     the order of its formats, the component of each, and the expressions between formats of a component
  trace S                  for each format, the record of all routes to it from format S
  query ALGEBRA S          for each format, what all routes to it from format S come to in one algebra
";

impl Vocabulary {
    // Lists the commands.
    pub(crate) fn list(self, out: &mut String) -> Result<(), AllocError> {
        out.push_str(APPRAISING)?;
        match self {
            Vocabulary::Drawing => out.push_str(DRAWING),
            Vocabulary::Asking => {
                out.push_str(LENDING)?;
                out.push_str(DRAWING)?;
                out.push_str(ASKING)
            }
        }
    }

    // How long buffers are made until a script chooses: none that no command of the vocabulary needs.
    pub(crate) fn rooms(self) -> Rooms {
        match self {
            Vocabulary::Drawing => Rooms::for_steps(),
            Vocabulary::Asking => Rooms::ample(),
        }
    }
}
