//! What ends at the tier.
ghost use Rattle.std.specs.Prelude.{◌≡◌, not};
ghost use Rattle.gateway_steps.specs.Sides.{without_request, without_request_if, no_release, release_of, release_if, tier_without, release_of_passed};

use crate::state::{AtTier, Released};

impl Released {
    // Nothing ended.
    pub(crate) fn nothing() -> Self
        ensures { result ≡ no_release }
    {
        Released {
            request: false,
            permit: false,
            write: false,
        }
    }
}

impl AtTier {
    // Its request ends, and with it its permit, its write, its wait.
    pub(crate) fn let_go(&mut self) -> Released
        ensures left { self.new ≡ without_request self.old }
        ensures released { result ≡ release_of self.old }
    {
        let released = Released {
            request: self.held,
            permit: self.permit.is_some(),
            write: self.writes,
        };
        self.held = false;
        self.permit = None;
        self.writes = false;
        self.joinable = false;
        self.holder = None;
        self.moved = false;
        self.passing = false;
        released
    }

    // The same, where it ends.
    pub(crate) fn let_go_if(&mut self, ends: bool) -> Released
        ensures left { self.new ≡ without_request_if ends self.old }
        ensures released { result ≡ release_if ends self.old }
    {
        if ends {
            self.let_go()
        } else {
            Released::nothing()
        }
    }

    // The same; else it reads no more in what is stored.
    pub(crate) fn pass_or_let_go(&mut self, ends: bool) -> Released
        ensures left { self.new ≡ tier_without ends self.old }
        ensures released { result ≡ release_if ends self.old }
    {
        self.passing = self.passing && ends;
        self.let_go_if(ends)
    }

    // All who read in what was stored have passed it: its request ends, where it is for them.
    pub(crate) fn let_go_passed(&mut self, ends: bool) -> Released
        ensures left { self.new ≡ without_request_if ends self.old }
        ensures released { result ≡ release_of_passed ends self.old }
    {
        let mut released = self.let_go_if(ends);
        released.write = false;
        released
    }
}
