//! Copies of requests.

ghost use Rattle.std.specs.Prelude.{◌≡◌, IfOk};

use crate::bytes::{Octets, OctetsList, ToBytes, ToRecords};
use crate::request::Request;
use std::alloc::{AllocError, Global};

impl<H: ToBytes> Octets<H> {
    /// Copies the bytes. The only refusal is out of memory.
    pub(crate) fn copy(&self, alloc: Global) -> Result<Octets, AllocError>
        ensures { IfOk result (λ copy. copy ≡ self.now) }
    {
        Ok(Octets(self.0.to_bytes(alloc)?))
    }
}

impl<L: ToRecords> OctetsList<L> {
    /// Copies the records. The only refusal is out of memory.
    pub(crate) fn copy(&self, alloc: Global) -> Result<OctetsList, AllocError>
        ensures { IfOk result (λ copy. copy ≡ self.now) }
    {
        Ok(OctetsList(self.0.to_records(alloc)?))
    }
}

impl<H: ToBytes, L: ToRecords> Request<Octets<H>, OctetsList<L>> {
    /// Copies the request, with all its bytes. The only refusal is out of memory.
    pub fn to_request(&self, alloc: Global) -> Result<Request, AllocError>
        ensures { IfOk result (λ request. request ≡ self.now) }
    {
        Ok(match self {
            Request::Hello => Request::Hello,
            Request::Create {
                name,
                org,
                rfm,
                mrs,
                mrn,
                fac,
            } => Request::Create {
                name: name.copy(alloc)?,
                org: *org,
                rfm: *rfm,
                mrs: *mrs,
                mrn: *mrn,
                fac: *fac,
            },
            Request::OpenFile { name, fac } => Request::OpenFile {
                name: name.copy(alloc)?,
                fac: *fac,
            },
            Request::Connect => Request::Connect,
            Request::Get(by) => Request::Get(*by),
            Request::Put { key, body } => Request::Put {
                key: *key,
                body: body.copy(alloc)?,
            },
            Request::Update { body } => Request::Update {
                body: body.copy(alloc)?,
            },
            Request::Delete => Request::Delete,
            Request::Rewind => Request::Rewind,
            Request::Fetch => Request::Fetch,
            Request::Store(bodies) => Request::Store(bodies.copy(alloc)?),
            Request::Continue(how) => Request::Continue(*how),
            Request::Close => Request::Close,
            Request::Purge => Request::Purge,
        })
    }
}

impl Request {
    /// Copies the request. The only refusal is out of memory.
    pub fn copy(&self, alloc: Global) -> Result<Request, AllocError>
        ensures { IfOk result (λ copy. copy ≡ self.now) }
    {
        self.to_request(alloc)
    }
}
