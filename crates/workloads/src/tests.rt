use crate::text;
use std::alloc::Global;
use std::test::Fail;

const GUPS_OF_64: &str = "\
#include <cilk.h>
#include <memoryweb.h>
void update(long *t, long x, long count) {
  for (long i = 0; i < count; i++) {
    x = x * 6364136223846793005 + 1442695040888963407;
    REMOTE_ADD(t + ((x >> 20) & 63), 1);
  }
}
int main() {
  long *t = mw_malloc1dlong(64);
  for (long k = 0; k < 8; k++) {
    cilk_spawn update(t, 0 + k, 64);
  }
  cilk_sync;
  long s = 0;
  for (long i = 0; i < 64; i++) {
    s += t[i];
  }
  printf(\"gups %ld %ld\\n\", 64, s);
  return 0;
}
";

const STREAM_OF_64: &str = "\
#include <cilk.h>
#include <memoryweb.h>
void add(long *a, long *b, long *c, long low, long high) {
  for (long i = low; i < high; i++) {
    c[i] = a[i] + b[i];
  }
}
int main() {
  long *a = mw_malloc1dlong(64);
  long *b = mw_malloc1dlong(64);
  long *c = mw_malloc1dlong(64);
  for (long i = 0; i < 64; i++) {
    a[i] = i;
    b[i] = 0;
  }
  for (long k = 0; k < 8; k++) {
    cilk_spawn_at(c + k) add(a, b, c, k * 8, (k + 1) * 8);
  }
  cilk_sync;
  long s = 0;
  for (long i = 0; i < 64; i++) {
    s += c[i];
  }
  printf(\"stream %ld %ld\\n\", 64, s);
  return 0;
}
";

const CHASE_OF_64: &str = "\
#include <cilk.h>
#include <memoryweb.h>
int main() {
  long *next = mw_malloc2dlong(8, 8);
  for (long i = 0; i < 64; i++) {
    next[i] = (i + 3) & 63;
  }
  FENCE();
  long at = 0;
  long s = 0;
  for (long i = 0; i < 64; i++) {
    at = next[at];
    s += at;
  }
  printf(\"chase %ld %ld\\n\", 64, s);
  return 0;
}
";

/// The text of a workload is `base` with each change made in turn.
fn is_changed(
    alloc: Global,
    number: u64,
    base: &str,
    changes: &[(&str, &str)],
) -> Result<bool, Fail> {
    let mut wanted = String::from_str(alloc, base)?;
    for (from, to) in changes {
        wanted = wanted.replace(alloc, *from, *to)?;
    }
    if number > 1_000_000 {
        return Ok(false);
    }
    let given = text(alloc, number)?;
    Ok(given.as_slice() == wanted.as_bytes())
}

#[test]
fn the_first_workloads_have_64_elements(rt: HostRuntime) -> Result<(), Fail> {
    for (number, wanted) in [(0, GUPS_OF_64), (1, STREAM_OF_64), (2, CHASE_OF_64)] {
        assert!(rt; is_changed(rt.alloc(), number, wanted, &[])?, "{number}");
    }
    Ok(())
}

#[test]
fn larger_numbers_change_size_and_values(rt: HostRuntime) -> Result<(), Fail> {
    let alloc = rt.alloc();
    assert!(rt; is_changed(alloc, 18, GUPS_OF_64, &[("0 + k", "1 + k")])?);
    assert!(rt; is_changed(alloc, 19, STREAM_OF_64, &[("b[i] = 0", "b[i] = 1")])?);
    assert!(rt; is_changed(alloc, 20, CHASE_OF_64, &[("i + 3", "i + 5")])?);
    let largest = [("64", "2048"), ("63", "2047"), ("(8,", "(256,")];
    assert!(rt; is_changed(alloc, 17, CHASE_OF_64, &largest)?);
    let last = [("64", "512"), ("b[i] = 0", "b[i] = 55555"), ("* 8", "* 64")];
    assert!(rt; is_changed(alloc, 1_000_000, STREAM_OF_64, &last)?);
    Ok(())
}
