// SPDX-License-Identifier: MIT
//! What is shown about a long run while it lasts.

use po_stress::Progress;
use std::alloc::AllocError;
use std::io::Eprint;
use std::sync::atomic::{AtomicBool, Ordering};
use std::sync::{Arc, Wait};
use std::thread::{self, JoinHandle, Parker, Threads};
use std::time::Duration;

/// How many milliseconds pass before each showing.
const PAUSE: u64 = 1000;

/// What the thread that shows a run shares with the one that ends it.
#[derive(Drop)]
struct Shared {
    progress: Arc<Progress>,
    has_ended: AtomicBool,
    pause: Parker,
}

/// A run that is shown: once a second, a line on standard error says how many calls have ended.
#[derive(Drop)]
pub(crate) struct Watch {
    shared: Arc<Shared>,
    thread: JoinHandle<()>,
}

/// Shows how many calls have ended, once a second, until the run has ended, and then clears the line.
fn show<R: Eprint + Wait>(rt: &R, shared: &Shared) {
    let mut is_shown = false;
    for _ in rt.forever() {
        shared.pause.park_timeout(rt, Duration::from_millis(PAUSE));
        if shared.has_ended.load(Ordering::SeqCst) {
            break;
        }
        let _ = eprint!(rt; "\r{} calls have ended", shared.progress.ended());
        is_shown = true;
    }
    if is_shown {
        let _ = eprint!(rt; "\r\x1b[K");
    }
}

/// Starts the thread that shows the run.
fn start<R: Eprint + Threads + Wait + Copy + Send + 'static>(
    rt: R,
    shared: Arc<Shared>,
) -> Result<JoinHandle<()>, AllocError> {
    let job = move || show(&rt, &*shared);
    Ok(thread::spawn(&rt, job)?)
}

impl Watch {
    /// Shows the run from now on, or not at all if there is no memory for that.
    pub(crate) fn start<R: Eprint + Threads + Wait + AllocGlobal + Copy + Send + 'static>(
        rt: R,
        progress: &Arc<Progress>,
    ) -> Option<Watch> {
        let shared = Shared {
            progress: Arc::try_clone(progress).ok()?,
            has_ended: AtomicBool::new(false),
            pause: Parker::new(),
        };
        let shared = Arc::new(rt.alloc(), shared).ok()?;
        let thread = start(rt, Arc::try_clone(&shared).ok()?).ok()?;
        Some(Watch { shared, thread })
    }

    /// Stops the showing, and clears what is shown.
    pub(crate) fn stop<R: Threads>(self, rt: &R) {
        let Watch { shared, thread } = self;
        shared.has_ended.store(true, Ordering::SeqCst);
        shared.pause.unpark();
        thread.join(rt);
    }
}
