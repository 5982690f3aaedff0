/// The built-in words, in the order of docs/language.md, "Built-ins". `MwReplicatedInit` is the one with
/// an expression for its address.
#[derive(Clone, Copy, PartialEq, Eq, Debug)]
pub enum Builtin {
    MwMalloc1dlong,
    MwMalloc2dlong,
    MwLocalmalloc,
    MwMallocrepl,
    MwReplicatedInit,
    RemoteAdd,
    RemoteAnd,
    RemoteOr,
    RemoteXor,
    RemoteMin,
    RemoteMax,
    AtomicAddms,
    AtomicSwap,
    AtomicCas,
    Fence,
    Migrate,
    NodeId,
}
