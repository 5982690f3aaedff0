//! Requests for words: what each takes, and how many words it is granted.

ghost use Rattle.std.specs.Prelude.{◌≡◌, ◌≢◌, ◌≤◌, ◌^◌, ℕ, pos, false, IsTrue, IfSome, IfNone, Some, option_map, unsigned_abs};
ghost use Rattle.word_ops.specs.Operators.{same_word};
ghost use Rattle.data_layout.specs.Address.{is_view};
ghost use Rattle.world_model.specs.Allocation.{block_view as view_of_blocks};
ghost use Rattle.service.specs.Requests.{IsAtOneOf, taken_by, has_room, address_of, words_granted};

/// The view that is dealt word by word.
const STRIPED: u32 = 0;
/// How many views are dealt in blocks; view v has blocks of 2^v words.
const BLOCK_VIEWS: u32 = 21;
/// The view of which each nodelet has its own copy.
const REPLICATED: u32 = 31;
/// The view of nodelet 0 alone; those of the other nodelets follow.
const FIRST_LOCAL: u32 = 32;

/// Every cursor refuses more words.
const MOST_WORDS: i64 = 1 << 32;

/// What a request for words asks for (docs/machine.md, "Actions").
#[derive(Clone, Copy, PartialEq, Eq, Debug)]
pub enum AllocKind {
    /// Words dealt one by one.
    Striped,
    /// Blocks of words.
    Blocked,
    /// Words of one nodelet.
    Local { nodelet: u32 },
    /// Words of which each nodelet has a copy.
    Replicated,
}

/// So many words of a view.
#[derive(Clone, Copy, Debug)]
pub(crate) struct Share {
    pub view: u32,
    pub count: i64,
}

/// What a request takes; None only where every cursor refuses it. `b` is the number of blocks and `n` the words
/// of each, or the words of any other request.
pub(crate) fn taken(kind: AllocKind, b: i64, n: i64) -> Option<Share>
    requires nodelet { IsAtOneOf 64 kind }
    ensures some { IfSome result (λ it. taken_by kind b n ≡ Some (it.view, it.count)) }
    ensures view { IfSome result (λ it. (nodelets : ℕ) → IsAtOneOf nodelets kind → IsTrue (is_view it.view nodelets)) }
    ensures none { IfNone result (has_room (taken_by kind b n) ≡ false) }
{
    let view = match kind {
        AllocKind::Striped => STRIPED,
        AllocKind::Blocked => return in_blocks(b, n),
        AllocKind::Local { nodelet } => FIRST_LOCAL + nodelet,
        AllocKind::Replicated => REPLICATED,
    };
    Some(Share { view, count: n })
}

/// How many words a request is granted where `Services::serve` answers it with an address, and 0 where every
/// cursor refuses it; `kind`, `b` and `n` are what that call was given. Takes no memory
/// (docs/machine.md, "Pieces and addresses in the simulator").
pub fn words_granted(kind: AllocKind, b: i64, n: i64) -> u64
    ensures words { result ≡ words_granted (taken_by kind b n) }
    ensures granted { (cursors : ℕ → ℕ) → address_of cursors (taken_by kind b n) ≢ pos 0 →
        option_map (λ it. unsigned_abs it.1) (taken_by kind b n) ≡ Some result }
{
    let count = match kind {
        AllocKind::Blocked => in_blocks(b, n).map_or(0, |it| it.count),
        AllocKind::Striped | AllocKind::Local { .. } | AllocKind::Replicated => n,
    };
    if 1 <= count && count <= MOST_WORDS {
        count as u64
    } else {
        0
    }
}

/// The words of `b` blocks of `n` words each; None only where every cursor refuses them.
fn in_blocks(b: i64, n: i64) -> Option<Share>
    ensures some { IfSome result (λ it. taken_by AllocKind.Blocked b n ≡ Some (it.view, it.count)) }
    ensures view { IfSome result (λ it. it.view ≤ 20) }
    ensures none { IfNone result (has_room (taken_by AllocKind.Blocked b n) ≡ false) }
{
    if b < 1 {
        return None;
    }
    let view = block_view(n)?;
    let count = b.checked_mul(n)?;
    Some(Share { view, count })
}

/// The view whose blocks have so many words.
fn block_view(words: i64) -> Option<u32>
    ensures view { result ≡ view_of_blocks words }
    ensures blocks { IfSome result (λ view. view ≤ 20) }
{
    (0..BLOCK_VIEWS).find(|&view| has_blocks_of(view, words))
}

/// Whether the blocks of a view have so many words.
fn has_blocks_of(view: u32, words: i64) -> bool
    requires view { view ≤ 20 }
    ensures { result ≡ same_word words (pos (2 ^ view)) }
{
    words == 1 << view
}
