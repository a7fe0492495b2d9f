//! What is counted together: the domains of all vertices, or those of some.
//!
//! Who counts only reads. So all that looks at sizes and unions is written once, over a family of domains that are numbered from 0: a
//! vertex is its own number, and of some vertices each goes by its place among them.

ghost use Rattle.std.specs.Prelude.{◌≡◌, ℕ, ◌^◌, ◌<◌, ◌≤◌, ◌↔◌, length, IsSome, IfSome, IfNone};
ghost use Rattle.bit_rows.specs.BitRows.{has, words_for};
ghost use Rattle.domain_bits.specs.Changes.{Single};
ghost use Rattle.domain_bits.specs.Removals.{State, in_domain, size_of};
ghost use Rattle.all_different.specs.Members.{AreMembers, part};

use domain_bits::{Domains, Trail};

/// Domains that are counted together.
pub(crate) trait Family {
    ghost state: { Self → State };

    /// How many there are.
    fn vertices(&self) -> u16
        ensures { result ≡ (state self.now).vertices };

    /// How many values one has. Cost: one step.
    fn size(&self, p: u16) -> u16
        requires { p < (state self.now).vertices }
        ensures { result ≡ size_of (state self.now) p };

    /// One as a row of bits. Cost: one step.
    fn row(&self, p: u16) -> &[u64]
        requires { p < (state self.now).vertices }
        ensures long { length result.now ≡ words_for (state self.now).values }
        ensures short { length result.now ≤ 1024 }
        ensures bits { (t : ℕ) → has result.now t ≡ in_domain (state self.now) p t };

    /// The value of one that has one value only. Cost: one step.
    fn only(&self, p: u16) -> Option<u16>
        requires { p < (state self.now).vertices }
        ensures one { IsSome result ↔ (size_of (state self.now) p ≡ 1) }
        ensures some { IfSome result (λ t. Single (state self.now) p t) }
        ensures none { IfNone result ((t : ℕ) → Single (state self.now) p t → ⊥) };
}

impl<T: Trail> Family for Domains<T> {
    ghost state = { λ d. d };

    fn vertices(&self) -> u16 {
        self.vertices()
    }

    fn size(&self, p: u16) -> u16 {
        self.size(p)
    }

    fn row(&self, p: u16) -> &[u64] {
        self.row(p)
    }

    fn only(&self, p: u16) -> Option<u16> {
        self.only(p)
    }
}

/// The domains of some vertices, each at its vertex's place among them.
#[derive(Drop)]
pub(crate) struct Part<'a, T: Trail> {
    pub(crate) domains: &'a Domains<T>,
    pub(crate) members: &'a [u16],
    ghost are_members: { AreMembers domains.now.vertices members.now },
    ghost few: { length members.now < 2 ^ 16 },
}

impl<'a, T: Trail> Family for Part<'a, T> {
    ghost state = { λ x. part x.domains.now x.members.now };

    fn vertices(&self) -> u16 {
        self.members.len() as u16
    }

    fn size(&self, p: u16) -> u16 {
        self.domains.size(self.members[usize::from(p)])
    }

    fn row(&self, p: u16) -> &[u64] {
        self.domains.row(self.members[usize::from(p)])
    }

    fn only(&self, p: u16) -> Option<u16> {
        self.domains.only(self.members[usize::from(p)])
    }
}
