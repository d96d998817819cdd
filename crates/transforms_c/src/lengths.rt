// The lengths of the three slices for E rows of S samples; 0, as C has no Option, where E or S is out of bounds.
ghost use Rattle.std.specs.Prelude.{◌≡◌, ◌&&◌};
ghost use Rattle.transforms_c.specs.Lengths.{rows_fit, capacity_fits, head_len, instants_len, poses_len};

use registry::layout;
use registry::limits::{MOST_ROWS, MOST_SAMPLES};

fn rows_fit(rows: u64) -> bool
    ensures { result ≡ rows_fit rows }
{
    (1..=MOST_ROWS).contains(&rows)
}

fn samples_fit(samples: u64) -> bool
    ensures { result ≡ capacity_fits samples }
{
    (1..=MOST_SAMPLES).contains(&samples)
}

fn sizes_fit(rows: u64, samples: u64) -> bool
    ensures { result ≡ (rows_fit rows && capacity_fits samples) }
{
    rows_fit(rows) && samples_fit(samples)
}

#[unsafe(no_mangle)]
pub extern "C" fn transforms_head_len(rows: u64) -> usize
    ensures { result ≡ head_len rows }
{
    if !rows_fit(rows) {
        return 0;
    }
    layout::head_length(rows as usize)
}

#[unsafe(no_mangle)]
pub extern "C" fn transforms_instants_len(rows: u64, samples: u64) -> usize
    ensures { result ≡ instants_len rows samples }
{
    if !sizes_fit(rows, samples) {
        return 0;
    }
    layout::instants_length(rows as usize, samples as usize)
}

#[unsafe(no_mangle)]
pub extern "C" fn transforms_poses_len(rows: u64, samples: u64) -> usize
    ensures { result ≡ poses_len rows samples }
{
    if !sizes_fit(rows, samples) {
        return 0;
    }
    layout::poses_length(rows as usize, samples as usize)
}
