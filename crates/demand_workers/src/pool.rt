// What workers work with.
ghost use Rattle.std.specs.Prelude.{◌≡◌, ◌≤◌, IfOk, length};
ghost use Rattle.market_units.specs.declared.limits.TheConstants.{MAX_WORKERS};

use demand_oracle::Workspace;
use market_units::{MAX_WORKERS, NoMemory};
use std::alloc::Global;
use std::sync::Mutex;

/// A workspace for each of 1 to 16 workers.
#[derive(Drop)]
pub struct Pool {
    /// How many workers there are.
    pub workers: u16,
    // Behind locks, since threads share them: a thread is lent only what it has to answer. A worker
    // locks its own, which no other does meanwhile.
    workspaces: Vec<Mutex<Workspace>>,
    ghost each: { length workspaces.items ≡ workers },
    ghost some: { 1 ≤ workers },
    ghost few: { workers ≤ MAX_WORKERS },
}

impl Pool {
    /// Reserves a workspace for each of 1 to 16 workers. The only error is that memory was wanted
    /// and not given.
    pub fn reserve(alloc: Global, workers: u16) -> Result<Pool, NoMemory>
        requires { (1 ≤ workers) × (workers ≤ MAX_WORKERS) }
        ensures { IfOk result (λ pool. pool.workers ≡ workers) }
    {
        let mut workspaces = Vec::with_capacity(alloc, usize::from(workers))?;
        for _ in 0..workers {
            let workspace = Workspace::reserve(alloc)?;
            workspaces.push(Mutex::new(workspace))?;
        }
        Ok(Pool {
            workers,
            workspaces,
        })
    }

    /// The workspaces, one for each worker.
    pub(crate) fn workspaces(&self) -> &[Mutex<Workspace>]
        ensures each { length result.now ≡ self.now.workers }
        ensures some { 1 ≤ length result.now }
        ensures few { length result.now ≤ MAX_WORKERS }
    {
        &self.workspaces
    }
}
