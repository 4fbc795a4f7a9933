ghost use Rattle.std.specs.Prelude.{◌≡◌, MatchOption};
ghost use Rattle.cl_lanes.specs.{Gaps.{gaps, IsFirst}, Inner.{Chunks.AreChunks, Places.{ArePaired, AreWithout}}};

use std::simd::prelude::*;

// Splits the numbers into chunks of eight and returns the full ones, without the rest.
#[inline(always)]
pub(crate) fn full_chunks(numbers: &[u64]) -> &[[u64; 8]]
    ensures { AreChunks numbers.now result.now }
{
    numbers.as_chunks::<8>().0
}

// Computes the gaps of eight pairs.
#[inline(always)]
pub(crate) fn lane_gaps(ends: &[u64; 8], starts: &[u64; 8]) -> u64x8
    requires { ArePaired ends.now starts.now }
    ensures { result ≡ gaps ends.now starts.now }
{
    u64x8::from_array(*ends).strict_sub(u64x8::from_array(*starts))
}

// Finds the first of eight pairs that has the gap.
#[inline(always)]
pub(crate) fn first_lane(ends: &[u64; 8], starts: &[u64; 8], gap: u64) -> Option<usize>
    requires { ArePaired ends.now starts.now }
    ensures { MatchOption result (AreWithout ends.now starts.now 8 gap)
        (λ lane. IsFirst ends.now starts.now gap lane) }
{
    let found = lane_gaps(ends, starts)
        .simd_eq(u64x8::splat(gap))
        .to_bitmask();
    if found == 0 {
        None
    } else {
        Some(found.trailing_zeros() as usize)
    }
}
