//! The law of tables.
//!
//! Its contract is the law, and its body is empty: nothing is computed here.

ghost use Rattle.std.specs.Prelude.{ℕ, []};
ghost use Rattle.cics_history.specs.declared.resources.Resource.{Resource};
ghost use Rattle.cics_enqueue.specs.Table.{Table, IsLawful, IsFreeFor};
ghost use Rattle.cics_enqueue.specs.Table.{taken, given_back, released};

/// Shows that every table is lawful: its resources rise, and conflicting resources have one owner.
/// Each count is 1, or more for a user's value. So two units never own a key and a prefix of it, or
/// two prefixes of which one begins with the other.
///
/// - `begins`: the empty table is lawful.
/// - `takes`: a table stays lawful if a unit acquires what it may acquire.
/// - `gives_back`: it stays so if a unit releases a resource once.
/// - `releases`: it stays so if a unit releases all that it owns.
pub fn tables_stay_lawful()
    ensures begins { IsLawful [] }
    ensures takes { (t : Table) (r : Resource) (unit : ℕ) →
        IsLawful t → IsFreeFor t r unit → IsLawful (taken t r unit) }
    ensures gives_back { (t : Table) (r : Resource) (unit : ℕ) →
        IsLawful t → IsLawful (given_back t r unit) }
    ensures releases { (t : Table) (unit : ℕ) → IsLawful t → IsLawful (released t unit) }
{}
