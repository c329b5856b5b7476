//! What a certificate says.

use crate::lines::LineList;
use std::marker::Model;

/// A bound, and lines that are to show that no state lies below it. Each line has literals, in
/// order and none beside its complement, and the sizes of all numbers sum to below 2^100.
pub struct Certificate {
    pub bound: i128,
    pub lines: LineList,
}

impl Drop for Certificate {
    fn drop(self) {
        let Certificate {
            bound: _bound,
            lines: _lines,
        } = self;
    }
}

impl Model for Certificate {
    ghost use Rattle.posiform_check.specs.BitForms.{CertificateContent};
    ghost use Rattle.posiform_check.specs.Certificates.{IsCertificate};

    ghost Value = { CertificateContent };

    ghost view = { λ c. record { bound = c.bound; lines = c.lines } };

    ghost invariant = { λ c. IsCertificate (record { bound = c.bound; lines = c.lines }) };
}
