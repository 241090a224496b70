//! Laws of queries: octets are one query, or first break one rule.
ghost use Rattle.std.specs.Prelude.{◌≡◌, ◌≢◌, ◌<◌, ◌^◌, ℕ, List, false};
ghost use Rattle.dns_label.specs.Name.{IsName};
ghost use Rattle.zone_records.specs.Zone.{any_class};
ghost use Rattle.zone_core.specs.Query.{AxfrQuery, IsQuery, IsQueryFault, query_octets};
ghost use Rattle.zone_core.specs.declared.query_error.QueryError.{QueryError};

/// A query that is composed for a name and a class is read as a query for that name and class.
pub fn made_query_is_read()
    ensures { (query : AxfrQuery) → query.recursion ≡ false → query.id < 2 ^ 16 → IsName query.name → query.class < 2 ^ 16 →
        query.class ≢ any_class → IsQuery (query_octets query) query }
{}

/// A message is at most one query for a transfer.
pub fn query_asks_one_thing()
    ensures { (message : List ℕ) (query other : AxfrQuery) → IsQuery message query → IsQuery message other → query ≡ other }
{}

/// A query for a transfer breaks no rule.
pub fn query_breaks_no_rule()
    ensures { (message : List ℕ) (query : AxfrQuery) (error : QueryError) → IsQuery message query → IsQueryFault message error → ⊥ }
{}

/// A message has at most one first broken rule.
pub fn one_query_fault()
    ensures { (message : List ℕ) (e d : QueryError) → IsQueryFault message e → IsQueryFault message d → e ≡ d }
{}
