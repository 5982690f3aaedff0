//! The code that is written for programs is read again as code that keeps all rules.

use crate::tests::answer;
use code_text::{CodeRefusal, read};
use std::alloc::{AllocError, Global};
use std::test::Fail;
use threadlet_code::{VerifyRefusal, verify};

/// The code that the bytes are keeps all rules.
fn is_verified(alloc: Global, bytes: &[u8]) -> Result<bool, AllocError> {
    if bytes.len() > 1_048_576 {
        return Ok(false);
    }
    match read(alloc, bytes) {
        Ok(code) => match verify(alloc, code) {
            Ok(_verified) => Ok(true),
            Err(VerifyRefusal::OutOfMemory { .. }) => Err(AllocError),
            Err(VerifyRefusal::Bad { .. }) => Ok(false),
        },
        Err(CodeRefusal::OutOfMemory) => Err(AllocError),
        Err(CodeRefusal::Fault(_)) => Ok(false),
    }
}

#[test]
fn code_that_is_written_is_read_and_verified_again(rt: HostRuntime) -> Result<(), Fail> {
    let texts = [
        "int main() { return 0; }",
        "int main() { printf(\"a \\\"b\\\" \\\\ 100%% %ld\\n\", -9223372036854775807 - 1); return 0; }",
        "long f(long n) { if (n == 0) { return 0; } return 1 + f(n - 1); } int main() { return f(3); }",
        "long f(long v) { return v; } int main() { long x = 7; x = cilk_spawn f(1); cilk_sync; return x; }",
        "void p(long *q) { *q = 1; } int main() { long *a = mw_malloc1dlong(8); cilk_spawn_at(a + 3) p(a + 3); }",
        "int main() { long *a = mw_malloc2dlong(2, 4); cilk_for (long i = 0; i < 8; i++) { a[i] += i; } return 0; }",
        "replicated long r; int main() { mw_replicated_init(&r, 9); FENCE(); r = 4; return r; }",
        "int main() { long *a = mw_mallocrepl(2); MIGRATE(a); REMOTE_MAX(a, ATOMIC_CAS(a, 1, 2)); return NODE_ID(); }",
        "long g; int main() { while (g < 3) { g++; if (g == 2) { continue; } else { break; } } return !g; }",
        "int main() { long *p = mw_localmalloc(2, (long *)1); return (p && *p) || ATOMIC_SWAP(p, 1) + ATOMIC_ADDMS(p, ~2); }",
    ];
    for text in texts {
        let answer = answer(rt.alloc(), &["emit"], text.as_bytes())?;
        assert_eq!(rt; answer.0, 0);
        assert!(rt; is_verified(rt.alloc(), answer.1.as_slice())?);
    }
    Ok(())
}
