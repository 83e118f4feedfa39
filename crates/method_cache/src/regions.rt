//! Sets of methods that fit the method cache together, and what it takes to load each of them once.

ghost use Rattle.std.specs.Prelude.{◌≡◌, ◌≤◌, ◌↔◌, IsTrue, length};
ghost use Rattle.method_cache.specs.Regions.Region.{AreRegionMembers, FitsCache, stall_of};

pub mod laws;

/// Whether methods can all be in a cache of so many blocks at once. `sizes` has the blocks that each
/// method takes, by its number.
pub fn fits(sizes: &[u32], members: &[u32], blocks: u32) -> bool
    requires { AreRegionMembers (length sizes.now) members.now }
    ensures { IsTrue result ↔ FitsCache sizes.now members.now blocks }
{
    let mut taken = 0u64;
    for m in members {
        taken += u64::from(sizes[*m as usize]);
    }
    taken <= u64::from(blocks)
}

/// The cycles that the loads of methods stall, each of them once, where a read waits `r` cycles
/// (JOP Reference Handbook, "Method Cache"). `words` has the code words of each method, by its number.
pub fn load_sum(words: &[u32], members: &[u32], r: u32) -> u64
    requires members { AreRegionMembers (length words.now) members.now }
    requires wait { r ≤ 63 }
    ensures { result ≡ stall_of r words.now members.now }
{
    let mut cycles = 0;
    for m in members {
        cycles += 4 + u64::from(words[*m as usize]) * (2 + u64::from(r));
    }
    cycles
}

#[cfg(test)]
mod tests {
    use super::*;

    #[test]
    fn methods_fit_and_are_loaded_once(rt: HostRuntime) {
        let members = [0, 1, 2];
        assert!(rt; fits(&[6, 5, 5], &members, 16));
        assert!(rt; !fits(&[6, 6, 5], &members, 16));
        assert!(rt; fits(&[6, 6, 5], &[2, 0], 11));
        assert_eq!(rt; load_sum(&[10, 20, 30], &members, 1), 34 + 64 + 94);
        assert_eq!(rt; load_sum(&[10, 20, 30], &[2], 1), 94);
    }
}
