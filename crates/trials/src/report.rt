// What was tried, and what differed.
use crate::plain::Plain;
use std::alloc::{AllocError, Global};
use std::fmt;

mod kinds;

pub(crate) use kinds::Kind;
use kinds::{CALLED, KINDS};

#[derive(Drop)]
pub(crate) struct Report {
    heap: Global,
    // The trial that is run, by which it can be run again.
    pub(crate) trial: u64,
    // Whether its names are in UTF-8.
    pub(crate) utf8: bool,
    bytes: [u64; KINDS],
    wide: [u64; KINDS],
    differences: u64,
    // The first few of them.
    told: Vec<String>,
}

impl Report {
    // As many differences are told.
    const TOLD: usize = 5;

    pub(crate) fn new(heap: Global) -> Report {
        Report {
            heap,
            trial: 0,
            utf8: false,
            bytes: [0; KINDS],
            wide: [0; KINDS],
            differences: 0,
            told: Vec::new(heap),
        }
    }

    pub(crate) fn count(&mut self, kind: Kind) {
        self.add(kind, 1);
    }

    pub(crate) fn add(&mut self, kind: Kind, more: usize) {
        let counts = if self.utf8 {
            &mut self.wide
        } else {
            &mut self.bytes
        };
        if let Some(count) = counts.get_mut(kind as usize) {
            *count = count.saturating_add(more as u64);
        }
    }

    // Something differs under a table.
    pub(crate) fn differ(&mut self, plain: &Plain, what: String) -> Result<(), AllocError> {
        self.differences = self.differences.saturating_add(1);
        if self.told.len() < Self::TOLD {
            let trial = self.trial;
            let told = format!(in self.heap; "trial {trial}: {what}\n  under {plain}")?;
            self.told.push(told)?;
        }
        Ok(())
    }

    // Whether nothing differed.
    pub(crate) fn is_clean(&self) -> bool {
        self.differences == 0
    }
}

impl fmt::Display for Report {
    fn fmt<W: fmt::Write>(&self, f: &mut fmt::Formatter<W>) -> fmt::Result {
        writeln!(f, "    bytes     UTF-8")?;
        for (kind, called) in &CALLED {
            let bytes = self.bytes.get(*kind as usize).copied().unwrap_or(0);
            let wide = self.wide.get(*kind as usize).copied().unwrap_or(0);
            writeln!(f, "{bytes:>9} {wide:>9} {called}")?;
        }
        for told in &self.told {
            writeln!(f, "{told}")?;
        }
        let differences = self.differences;
        write!(f, "{differences} differences")
    }
}
