// What was done to translations, newest first. Contracts alone see it, and it takes no more memory as it grows.
ghost use Rattle.std.specs.Prelude.{◌≡◌, [], ◌∷◌};
ghost use Rattle.vtlb.specs.Told.{done_of};

use crate::slot::Done;
use std::marker::Model;
use std::snapshot::Snapshot;
use vsm_base::Vtl;

// The last of it, and all before that. Where there is nothing before, nothing was done yet, and `last` says nothing.
#[derive(Drop)]
pub(crate) struct Past {
    before: Option<Snapshot<Past>>,
    last: Done,
}

impl Model for Past {
    ghost use Rattle.std.specs.Prelude.{List, length};
    ghost use Rattle.vsm_core.specs.Fills.{Cached as Happened};

    ghost Value = { List Happened };

    ghost use Rattle.vtlb.specs.Pasts.{past_of};

    ghost view = { λ c. past_of c.before c.last };

    ghost size = { λ l. length l };

    ghost use Rattle.vtlb.specs.Falls.{falls};

    ghost size_decreases = { λ a h. falls a };
}

impl Past {
    // Nothing was done yet.
    pub(crate) fn new() -> Past
        ensures { result ≡ [] }
    {
        Past {
            before: None,
            last: Done::Emptied(Vtl::Zero),
        }
    }

    // This was done now.
    pub(crate) fn add(&mut self, done: Done)
        ensures { self.new ≡ done_of done ∷ self.old }
    {
        let before = Snapshot::of(&*self);
        self.before = Some(before);
        self.last = done;
    }
}
