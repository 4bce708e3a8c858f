//! How a request tells its endpoint where it comes from.
ghost use Rattle.std.specs.Prelude.{◌≡◌, ◌++◌, IfOk, OnOk};
ghost use Rattle.bg_event_loop.specs.Origins as spec;
ghost use Rattle.bg_upgrade.specs.HeadTexts.{upgrade_fields};

use crate::client::Client;
use crate::settings::OriginSettings;
use bg_http::{Fields, Request, RuledName};
use bg_origin::{Origin, origin_fields, request_id, request_id_in};
use bg_upgrade::asks_for_upgrade;
use std::alloc::{AllocError, Global};
use std::io;
use std::net::IpAddr;

impl Client {
    /// Notes the address of the client, if the system gives it.
    pub(crate) fn note_address(&mut self)
        ensures { self.new ≡ record self.old { address = self.new.address } }
    {
        self.address = match self.stream.peer_addr() {
            Ok(address) => Some(address.ip()),
            Err(_) => None,
        };
    }

    /// Has the request that entered, and has this number in the book, tell its endpoint where it comes from, if requests do.
    /// Gives whether there was memory for that. Without it, or if no request entered, it tells nothing.
    pub(crate) fn tell_origin(
        &mut self,
        alloc: Global,
        origin: Option<OriginSettings>,
        number: u64,
    ) -> bool
        ensures { spec.TellsOrigin origin self.old.address number result self.old.sides self.new.sides }
    {
        let Some(settings) = origin else {
            return true;
        };
        let Some(request) = self.sides.request() else {
            return false;
        };
        let fields = told_fields(alloc, request, self.address, (settings, number));
        match fields {
            Ok(fields) => {
                self.record.keep_id(alloc, request_id_in(&fields));
                self.sides.replace_fields(fields)
            }
            Err(_) => false,
        }
    }
}

/// The fields of a request that tells where it comes from. One that asks for an upgrade still asks. The only error is an allocation
/// failure.
fn told_fields(
    alloc: Global,
    request: &Request,
    client: Option<IpAddr>,
    terms: (OriginSettings, u64),
) -> io::Result<Fields>
    ensures { IfOk result (λ told. told ≡ spec.told_fields terms.0 client terms.1 request.now) }
{
    let (settings, number) = terms;
    let id = request_id(
        alloc,
        settings.run,
        settings.number_offset.saturating_add(number),
    )?;
    let origin = Origin {
        client,
        request_id: id.as_slice(),
        trusts_client: settings.trusts_clients,
    };
    let mut told = origin_fields(alloc, &request.fields, &origin)?;
    if asks_for_upgrade(request) {
        ask_for_upgrade(&mut told, &request.fields)?;
    }
    Ok(told)
}

/// Adds the Upgrade fields of a request that asks for an upgrade, and a Connection field that names no other one, so that no field of
/// the client takes away what the endpoint is told (RFC 9110 sections 7.6.1 and 7.8).
fn ask_for_upgrade(told: &mut Fields, fields: &Fields) -> Result<(), AllocError>
    ensures { OnOk result (told.new ≡ spec.with_upgrade fields.now told.old) }
{
    add_upgrade_fields(told, fields)?;
    told.add(b"Connection", b"upgrade")
}

/// Adds the Upgrade fields, in their order.
fn add_upgrade_fields(told: &mut Fields, fields: &Fields) -> Result<(), AllocError>
    ensures { OnOk result (told.new ≡ told.old ++ upgrade_fields fields.now) }
{
    for field in fields.get() {
        if field.is(RuledName::Upgrade) {
            told.add(field.name(), field.value())?;
        }
    }
    Ok(())
}
