/// In a template a `$` and the letter behind it stand for a value in decimal.
pub const MARK: u8 = b'$';
/// The letter of how many elements a workload has.
pub const ELEMENTS: u8 = b'N';
/// The letter of one less than the elements.
pub const MASK: u8 = b'M';
/// The letter of an eighth of the elements.
pub const EIGHTH: u8 = b'P';
/// The letter of how far a chase goes from one element to the next.
pub const STRIDE: u8 = b'Q';
/// The letter of what tells workloads of one kind and size apart.
pub const SEED: u8 = b'Z';

/// Eight strands add to elements that they pick by pseudorandom numbers.
pub const GUPS: &str = "\
#include <cilk.h>
#include <memoryweb.h>
void update(long *t, long x, long count) {
  for (long i = 0; i < count; i++) {
    x = x * 6364136223846793005 + 1442695040888963407;
    REMOTE_ADD(t + ((x >> 20) & $M), 1);
  }
}
int main() {
  long *t = mw_malloc1dlong($N);
  for (long k = 0; k < 8; k++) {
    cilk_spawn update(t, $Z + k, $N);
  }
  cilk_sync;
  long s = 0;
  for (long i = 0; i < $N; i++) {
    s += t[i];
  }
  printf(\"gups %ld %ld\\n\", $N, s);
  return 0;
}
";

/// Eight strands add two rows into a third, each an eighth of it.
pub const STREAM: &str = "\
#include <cilk.h>
#include <memoryweb.h>
void add(long *a, long *b, long *c, long low, long high) {
  for (long i = low; i < high; i++) {
    c[i] = a[i] + b[i];
  }
}
int main() {
  long *a = mw_malloc1dlong($N);
  long *b = mw_malloc1dlong($N);
  long *c = mw_malloc1dlong($N);
  for (long i = 0; i < $N; i++) {
    a[i] = i;
    b[i] = $Z;
  }
  for (long k = 0; k < 8; k++) {
    cilk_spawn_at(c + k) add(a, b, c, k * $P, (k + 1) * $P);
  }
  cilk_sync;
  long s = 0;
  for (long i = 0; i < $N; i++) {
    s += c[i];
  }
  printf(\"stream %ld %ld\\n\", $N, s);
  return 0;
}
";

/// One strand follows a ring of elements that comes by each of them.
pub const CHASE: &str = "\
#include <cilk.h>
#include <memoryweb.h>
int main() {
  long *next = mw_malloc2dlong($P, 8);
  for (long i = 0; i < $N; i++) {
    next[i] = (i + $Q) & $M;
  }
  FENCE();
  long at = 0;
  long s = 0;
  for (long i = 0; i < $N; i++) {
    at = next[at];
    s += at;
  }
  printf(\"chase %ld %ld\\n\", $N, s);
  return 0;
}
";
