// The networks of the trials, each by the calls that draw it.
#[derive(Clone, Copy)]
pub(crate) enum Call {
    Add(usize, usize),
    Retire(usize),
    Restore(usize),
    // Sealed, and opened again.
    Seal,
}

// A network is sealed once more after the last of its calls.
#[derive(Clone, Copy)]
pub(crate) struct History {
    pub what: &'static str,
    pub formats: usize,
    pub calls: &'static [Call],
}

pub(crate) const TWO_FORMATS: History = History {
    what: "two formats, there and back, with a loop",
    formats: 2,
    calls: &[Call::Add(0, 1), Call::Add(1, 0), Call::Add(1, 1)],
};

pub(crate) const HISTORIES: [History; 6] = [
    TWO_FORMATS,
    History {
        what: "one format with two loops",
        formats: 1,
        calls: &[Call::Add(0, 0), Call::Add(0, 0)],
    },
    History {
        what: "a ring of three with parallel steps, a loop and a retired step",
        formats: 3,
        calls: &[
            Call::Add(0, 1),
            Call::Add(0, 1),
            Call::Add(1, 2),
            Call::Add(2, 0),
            Call::Add(1, 1),
            Call::Add(2, 1),
            Call::Retire(5),
        ],
    },
    History {
        what: "two components of two, joined by two steps",
        formats: 4,
        calls: &[
            Call::Add(2, 3),
            Call::Add(3, 2),
            Call::Add(2, 0),
            Call::Add(0, 1),
            Call::Add(1, 0),
            Call::Add(3, 1),
        ],
    },
    History {
        what: "a ring with a chord, sealed, and sealed again with a step retired",
        formats: 3,
        calls: &[
            Call::Add(0, 1),
            Call::Add(1, 2),
            Call::Add(2, 0),
            Call::Add(0, 2),
            Call::Add(2, 2),
            Call::Seal,
            Call::Retire(2),
        ],
    },
    History {
        what: "the same ring, with that step restored and another retired",
        formats: 3,
        calls: &[
            Call::Add(0, 1),
            Call::Add(1, 2),
            Call::Add(2, 0),
            Call::Add(0, 2),
            Call::Add(2, 2),
            Call::Retire(2),
            Call::Seal,
            Call::Restore(2),
            Call::Retire(3),
        ],
    },
];
