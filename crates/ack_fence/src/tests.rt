use super::Counts;
use std::alloc::AllocError;
use word_ops::Name;

#[test]
fn a_strand_is_clear_where_all_is_acknowledged(rt: HostRuntime) -> Result<(), AllocError> {
    let one = Name {
        nodelet: 2,
        number: 1,
    };
    let other = Name {
        nodelet: 1,
        number: 2,
    };
    let mut counts = Counts::new(rt.alloc());
    assert!(rt; counts.is_clear(one));
    counts.issue(one)?;
    counts.issue(one)?;
    assert!(rt; counts.is_clear(other));
    counts.ack(one);
    assert!(rt; !counts.is_clear(one));
    counts.issue(other)?;
    counts.ack(one);
    assert!(rt; counts.is_clear(one));
    assert!(rt; !counts.is_clear(other));
    Ok(())
}
