// A header by the name of its PDU, or by its address.
use mac_pdus::PduHeader;
use show::Shown;
use std::fmt;

#[derive(Clone, Copy)]
pub(crate) struct Named(pub(crate) PduHeader);

impl fmt::Display for Named {
    fn fmt<W: fmt::Write>(&self, f: &mut fmt::Formatter<W>) -> fmt::Result {
        match self.0 {
            PduHeader::Resource(r) => write!(f, "{}", Shown(r.address)),
            PduHeader::Frag(_) => write!(f, "MAC-FRAG"),
            PduHeader::End(_) => write!(f, "MAC-END"),
        }
    }
}
