//! What a cluster behind a lock is known by.

ghost use Rattle.tl_model.specs.declared.header.Header.{Header};

/// The header of one cluster, whose value contracts alone see.
pub trait Named {
    ghost header: { Header };
}
