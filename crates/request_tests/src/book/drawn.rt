//! Numbers that look drawn, from a seed.

/// A linear congruence with Knuth's numbers, of which the high half is taken.
pub fn draw(seed: &mut u64) -> u64 {
    *seed = seed
        .wrapping_mul(6_364_136_223_846_793_005)
        .wrapping_add(1_442_695_040_888_963_407);
    *seed >> 32
}
