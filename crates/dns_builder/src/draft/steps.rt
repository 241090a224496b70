//! Going on to a later section, and back to an earlier one.
ghost use Rattle.std.specs.Prelude.{◌≡◌, ◌≤◌, ◌<◌, ◌-◌, length};
ghost use Rattle.dns_builder.specs.Built.{Built, IsDraftOf};
ghost use Rattle.dns_builder.specs.Steps.{going_to, KeepsLimits};
ghost use Rattle.dns_builder.specs.Gone.{gone_back, gone_on};
ghost use Rattle.dns_builder.specs.Seen.{draft_in, held_in};

use super::Draft;
use dns_name::Composer;

impl<Target: Composer> Draft<Target> {
    /// Makes `count` sections started: drops later ones, and starts missing ones, which are empty.
    pub(crate) fn go_to(&mut self, count: usize)
        requires { count ≤ 4 }
        ensures built { (built : Built) → IsDraftOf Target.spelling built (draft_in self.old)
            → IsDraftOf Target.spelling (going_to count built) (draft_in self.new) }
        ensures begun { length (draft_in self.new).starts ≡ count }
        ensures limits { KeepsLimits (draft_in self.old) (draft_in self.new) }
        ensures stays { Target.stays (held_in self.old) (held_in self.new) }
    {
        if count < self.starts.len() {
            self.go_back(count);
        } else {
            self.go_on(count);
        }
    }

    /// Removes all items of the last of `count` sections.
    pub(crate) fn rewind(&mut self, count: usize)
        requires some { 0 < count }
        requires few { count ≤ 4 }
        ensures built { (built : Built) → IsDraftOf Target.spelling built (draft_in self.old)
            → IsDraftOf Target.spelling (going_to count (going_to (count - 1) built)) (draft_in self.new) }
        ensures begun { length (draft_in self.new).starts ≡ count }
        ensures limits { KeepsLimits (draft_in self.old) (draft_in self.new) }
        ensures stays { Target.stays (held_in self.old) (held_in self.new) }
    {
        self.go_to(count - 1);
        self.go_to(count);
    }

    /// Drops the sections from number `count` on, and their counts.
    fn go_back(&mut self, count: usize)
        requires begun { count < length (draft_in self.old).starts }
        requires few { count < 4 }
        ensures draft { (draft_in self.new) ≡ gone_back count (draft_in self.old) }
        ensures stays { Target.stays (held_in self.old) (held_in self.new) }
    {
        self.opt.target.truncate(self.starts[count]);
        self.opt.target.patch(4 + 2 * count, &[0; 8][2 * count..]);
        self.starts.truncate(count);
    }

    /// Starts empty sections until there are `count`.
    fn go_on(&mut self, count: usize)
        requires begun { length (draft_in self.old).starts ≤ count }
        requires few { count ≤ 4 }
        ensures draft { (draft_in self.new) ≡ gone_on count (draft_in self.old) }
        ensures target { held_in self.new ≡ held_in self.old }
    {
        let len = self.opt.target.octets().len();
        for _ in self.starts.len()..count {
            self.starts.push(len);
        }
    }
}
