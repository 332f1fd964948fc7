//! What it means that the cache has no answer, and that it suggests none.

ghost use Rattle.std.specs.Prelude.{ℕ, ◌≡◌, None};
ghost use Rattle.pack_defs.specs.Book.{BookView};
ghost use Rattle.pack_defs.specs.declared.worker.Worker.{Worker};
ghost use Rattle.cert_types.specs.declared.task.Task.{Task};
ghost use Rattle.batch_cache.specs.Answering.{cached_answer};
ghost use Rattle.batch_cache.specs.Cache.{CacheView};
ghost use Rattle.batch_cache.specs.Laws.{IsNoneKept};
ghost use Rattle.batch_cache.specs.Suggesting.{suggested_answer};

/// The cache has no answer exactly if no entry is valid. For maps this means that none of the top channel whose set
/// contains the task's is a valid fit on the task's set.
pub fn prove_none_is_kept()
    ensures so { (view : CacheView) (top : ℕ) (book : BookView) (task : Task) (worker : Worker) → cached_answer view top book task worker ≡ None → IsNoneKept view top book task worker }
    ensures alone { (view : CacheView) (top : ℕ) (book : BookView) (task : Task) (worker : Worker) → IsNoneKept view top book task worker → cached_answer view top book task worker ≡ None }
{}

/// If nothing is suggested for a task, the cache has no answer to it, over any book. So a racer that has the
/// suggestion checked, and asks for an answer only if it is rejected, misses none.
pub fn prove_none_is_suggested()
    ensures { (view : CacheView) (top : ℕ) (task : Task) (worker : Worker) → suggested_answer view top task worker ≡ None → (book : BookView) → cached_answer view top book task worker ≡ None }
{}
