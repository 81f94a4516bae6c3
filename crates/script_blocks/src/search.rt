//! Guesses of how labels fold. Nothing is promised of them: `fold` compares the labels before it follows one.

ghost use Rattle.std.specs.Prelude.{◌≡◌, ◌-◌, length};

use crate::chains::{Chains, mixed, place_of};
use std::alloc::{AllocError, Global};

/// The greatest number of symbols that decide together where the same was seen last.
const WIDEST: usize = 4;

/// How many symbols all passes together go over for each label.
const PASSES: usize = 16;

/// How many passes there are at most.
const ROUNDS: usize = 1_000;

/// How many symbols a pass compares in vain for each of its symbols.
const LOOKS: usize = 8;

/// How many stretches with the same hash are looked at.
const ALIKE: usize = 16;

/// The greatest number of places in a table of windows.
const PLACES: usize = 1_048_576;

/// How many periods are remembered that didn't repeat.
const PERIODS: usize = 256;

/// Symbols that seem to repeat: so many times those of the bodies from a place on.
#[derive(Clone, Copy)]
pub(crate) struct Stretch {
    times: u32,
    start: usize,
    len: usize,
}

impl Stretch {
    /// How often the bodies stand one behind the other.
    pub(crate) fn times(&self) -> u32 {
        self.times
    }
}

/// How a list of labels seems to fold. A symbol below the number of kinds is a label; those from there on are the
/// stretches, in order. Two stretches that are the same mostly have the same symbol. It keeps how many windows the last pass
/// had seen before.
#[derive(Drop)]
pub(crate) struct Plan {
    kinds: usize,
    stretches: Vec<Stretch>,
    bodies: Vec<u32>,
    chains: Chains,
    symbols: Vec<u32>,
    again: usize,
}

impl Plan {
    /// The guess for these labels of so many kinds.
    pub(crate) fn of(alloc: Global, kinds: usize, labels: &[u32]) -> Result<Plan, AllocError> {
        let mut plan = Plan {
            kinds,
            stretches: Vec::new(alloc),
            bodies: Vec::new(alloc),
            chains: Chains::new(alloc),
            symbols: Vec::new(alloc),
            again: 0,
        };
        plan.symbols = plan.folded(alloc, labels, 1)?;
        plan.fold_again(alloc, labels.len())?;
        Ok(plan)
    }

    // Folds on, the narrowest windows first, until nothing changes, the passes have become too many, or most windows are seen
    // once. There were so many labels.
    fn fold_again(&mut self, alloc: Global, labels: usize) -> Result<(), AllocError> {
        let mut width: usize = if self.symbols.len() < labels { 1 } else { 2 };
        let mut left = labels.saturating_mul(PASSES);
        for _ in 0..ROUNDS {
            let before = self.symbols.len();
            let is_rare = width > 1 && self.again < before / 2;
            if width > WIDEST || left < before || is_rare {
                break;
            }
            left = left.saturating_sub(before);
            let symbols = std::mem::replace(&mut self.symbols, Vec::new(alloc));
            self.symbols = self.folded(alloc, symbols.as_slice(), width)?;
            width = if self.symbols.len() < before {
                1
            } else {
                width.saturating_mul(2)
            };
        }
        Ok(())
    }

    /// The labels and the stretches that are left, in order.
    pub(crate) fn symbols(&self) -> &[u32] {
        self.symbols.as_slice()
    }

    /// The stretch that a symbol stands for, or none for a label.
    pub(crate) fn stretch_of(&self, symbol: u32) -> Option<Stretch> {
        let number = (symbol as usize).checked_sub(self.kinds)?;
        self.stretches.get(number).copied()
    }

    /// The symbols of a stretch.
    pub(crate) fn body_of(&self, stretch: Stretch) -> &[u32] {
        front(after(self.bodies.as_slice(), stretch.start), stretch.len)
    }

    // Whether a stretch is this one.
    fn is_stretch(&self, number: u32, times: u32, body: &[u32]) -> bool {
        match self.stretches.get(number as usize) {
            Some(stretch) => stretch.times == times && self.body_of(*stretch) == body,
            None => false,
        }
    }

    // The symbol of the stretch of this number.
    fn symbol(&self, number: usize) -> Result<u32, AllocError> {
        match u32::try_from(self.kinds.saturating_add(number)) {
            Ok(symbol) => Ok(symbol),
            Err(_) => Err(AllocError),
        }
    }

    // The symbol of a stretch.
    fn symbol_of(&mut self, alloc: Global, times: u32, body: &[u32]) -> Result<u32, AllocError> {
        let mut hash = mixed(0, times);
        for symbol in body {
            hash = mixed(hash, *symbol);
        }
        let mut candidate = self.chains.latest(hash);
        for _ in 0..ALIKE {
            let Some(number) = candidate else {
                break;
            };
            if self.is_stretch(number, times, body) {
                return self.symbol(number as usize);
            }
            candidate = self.chains.earlier(number);
        }
        self.add_stretch(alloc, hash, times, body)
    }

    // Adds a stretch, and gives its symbol.
    fn add_stretch(
        &mut self,
        alloc: Global,
        hash: u32,
        times: u32,
        body: &[u32],
    ) -> Result<u32, AllocError> {
        let number = self.stretches.len();
        self.chains.add(alloc, hash)?;
        let start = self.bodies.len();
        self.bodies.extend_from_slice(body)?;
        self.stretches.push(Stretch {
            times,
            start,
            len: body.len(),
        })?;
        self.symbol(number)
    }

    // The symbols with the stretches folded that stand a second time where a window of so many symbols was seen last. It
    // goes over them once, and compares few of them more often.
    fn folded(
        &mut self,
        alloc: Global,
        symbols: &[u32],
        width: usize,
    ) -> Result<Vec<u32>, AllocError> {
        let known = self.kinds.saturating_add(self.stretches.len());
        let mut windows = Windows::new(alloc, symbols.len(), known, width)?;
        let mut runs = Runs::new(alloc, symbols.len())?;
        let mut folded = Vec::new(alloc);
        // From this place on the last symbols are as they were.
        let mut plain = 0;
        let mut again: usize = 0;
        let mut at = 0;
        while at < symbols.len() {
            let before = windows.see(after(symbols, at), at);
            if before.is_some() {
                again = again.saturating_add(1);
            }
            match runs.find(symbols, plain, before, at) {
                Some(run) => {
                    folded.truncate(folded.len().saturating_sub(at.saturating_sub(run.start)));
                    let body = front(after(symbols, run.start), run.period);
                    folded.push(self.symbol_of(alloc, run.times(), body)?)?;
                    at = run.end().max(at.saturating_add(1));
                    plain = at;
                }
                None => {
                    folded.push(symbols[at])?;
                    at += 1;
                }
            }
        }
        self.again = again;
        Ok(folded)
    }
}

// The first so many symbols.
fn front(symbols: &[u32], count: usize) -> &[u32] {
    &symbols[..count.min(symbols.len())]
}

// The symbols after the first so many.
fn after(symbols: &[u32], count: usize) -> &[u32]
    ensures { length result.now ≡ length symbols.now - count }
{
    &symbols[count.min(symbols.len())..]
}

// How many symbols are like the one a period further, from the first on.
fn matching(symbols: &[u32], period: usize) -> usize {
    let mut count: usize = 0;
    for (symbol, further) in symbols.iter().zip(after(symbols, period)) {
        if *symbol != *further {
            break;
        }
        count = count.saturating_add(1);
    }
    count
}

// How many symbols before a place are like the one a period further, of so many.
fn matching_back(symbols: &[u32], at: usize, period: usize, most: usize) -> usize {
    for count in 0..most {
        let place = at.saturating_sub(count).saturating_sub(1);
        if symbols.get(place).copied() != symbols.get(place.saturating_add(period)).copied() {
            return count;
        }
    }
    most
}

/// A place from which on so many symbols are like the one a period further.
#[derive(Clone, Copy)]
struct Run {
    start: usize,
    period: usize,
    len: usize,
}

impl Run {
    // How often the period stands there, one after the other.
    fn times(&self) -> u32 {
        match self.len.checked_div(self.period) {
            Some(times) => u32::try_from(times.saturating_add(1)).unwrap_or(u32::MAX),
            None => 1,
        }
    }

    // What follows.
    fn end(&self) -> usize {
        self.start
            .saturating_add(self.period.saturating_mul(self.times() as usize))
    }
}

/// The runs that were found too short, the latest for each period, and how many symbols may still be compared in vain.
#[derive(Drop)]
struct Runs {
    short: Vec<Run>,
    left: usize,
}

impl Runs {
    fn new(alloc: Global, count: usize) -> Result<Runs, AllocError> {
        let none = Run {
            start: 0,
            period: 0,
            len: 0,
        };
        Ok(Runs {
            short: vec![in alloc; none; PERIODS]?,
            left: count.saturating_mul(LOOKS),
        })
    }

    // Whether the run at this place is known to be too short.
    fn is_known(&self, before: usize, period: usize) -> bool {
        match self.short.get(period % PERIODS) {
            Some(run) => {
                run.period == period
                    && run.start <= before
                    && before <= run.start.saturating_add(run.len)
            }
            None => false,
        }
    }

    // The run at a place where a window stands that was seen before, if it lies in what is plain and is long enough. It
    // begins as early as it can.
    fn find(
        &mut self,
        symbols: &[u32],
        plain: usize,
        before: Option<usize>,
        at: usize,
    ) -> Option<Run> {
        let before = before?;
        let period = at.saturating_sub(before);
        if before < plain || period == 0 || self.left == 0 || self.is_known(before, period) {
            return None;
        }
        self.compare(symbols, before.saturating_sub(plain), before, period)
    }

    // The run at a place, which begins at most so many symbols before it, if it is long enough.
    fn compare(
        &mut self,
        symbols: &[u32],
        room: usize,
        before: usize,
        period: usize,
    ) -> Option<Run> {
        let most = room.min(period.saturating_sub(1));
        let back = matching_back(symbols, before, period, most);
        let ahead = matching(after(symbols, before), period);
        let run = Run {
            start: before.saturating_sub(back),
            period,
            len: back.saturating_add(ahead),
        };
        if run.len >= period {
            return Some(run);
        }
        self.left = self.left.saturating_sub(run.len.saturating_add(1));
        let slot = period % PERIODS;
        if slot < self.short.len() {
            self.short[slot] = run;
        }
        None
    }
}

/// Where each window of so many symbols was seen last. A window of one has a place of its own, wider ones share places.
#[derive(Drop)]
struct Windows {
    width: usize,
    // One more than where, or 0.
    seen: Vec<u32>,
}

impl Windows {
    // For so many symbols, which are all below a number.
    fn new(alloc: Global, count: usize, below: usize, width: usize) -> Result<Windows, AllocError> {
        let places = if width == 1 { below } else { count.min(PLACES) };
        Ok(Windows {
            width,
            seen: vec![in alloc; 0; places]?,
        })
    }

    // The place of the window in front of these symbols.
    fn place(&self, symbols: &[u32]) -> usize {
        let window = front(symbols, self.width);
        if self.width == 1 {
            return match window.first() {
                Some(symbol) => *symbol as usize,
                None => 0,
            };
        }
        let mut hash = 1;
        for symbol in window {
            hash = mixed(hash, *symbol);
        }
        place_of(hash, self.seen.len())
    }

    // Where the window in front of these symbols was seen last. From now on it is this place.
    fn see(&mut self, symbols: &[u32], at: usize) -> Option<usize> {
        let place = self.place(symbols);
        if place >= self.seen.len() {
            return None;
        }
        let before = self.seen[place] as usize;
        self.seen[place] = u32::try_from(at.saturating_add(1)).unwrap_or(0);
        before.checked_sub(1)
    }
}
