//! What a row shows for some ticks, and the bars that are drawn for it. Times are in ticks, and the
//! sides of bars are lengths.

/// What a row shows for the ticks `from..to`: a part of a stretch, or the band of a job.
#[derive(Clone, Copy, PartialEq, Eq)]
pub struct Item {
    /// The job, counted from 0.
    pub job: u64,
    pub from: u64,
    pub to: u64,
    /// The class that it is drawn in: 0, 1 or 2.
    pub kind: u8,
    pub rest: Rest,
}

/// What is known of an item besides its job and its ticks.
#[derive(Clone, Copy, PartialEq, Eq)]
pub enum Rest {
    /// The runnable that a part executes, as its place in the task.
    Part {
        place: usize,
    },
    /// When the job of a band arrives and when it is due, and whether the band ends at the finish
    /// of the job.
    Band {
        arrival: u64,
        due: u64,
        finished: bool,
    },
}

/// The end of the last item of a bar.
#[derive(Clone, Copy, PartialEq, Eq)]
pub struct End {
    /// The job, counted from 0.
    pub job: u64,
    pub to: u64,
}

/// A bar that shows one item or several. Its sides are lengths.
#[derive(Clone, Copy, PartialEq, Eq)]
pub struct Bar {
    pub left: u64,
    pub right: u64,
    /// The greatest class of its items.
    pub kind: u8,
    /// The first item.
    pub first: Item,
    /// The end of the last item, where there are several.
    pub last: Option<End>,
}
