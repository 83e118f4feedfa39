//! A law of pools.
ghost use Rattle.std.specs.Prelude.{◌≡◌, ◌++◌, ℕ, List};
ghost use Rattle.class_pool.specs.declared.entry.Entry.{Entry};
ghost use Rattle.class_pool.specs.Spelling.{pool_bytes};
ghost use Rattle.class_pool.specs.Grammar.{IsPool};

/// No pool's bytes begin another's: what bytes begin with is one pool, and the bytes behind it are the same.
pub fn one_pool()
    ensures { (entries others : List Entry) (rest more : List ℕ) → IsPool entries → IsPool others →
        pool_bytes entries ++ rest ≡ pool_bytes others ++ more → (entries ≡ others) × (rest ≡ more) }
{}
