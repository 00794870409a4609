//! The parameters of a Services descriptor, as they are read. After a fault nothing is said of the cursor.

ghost use Rattle.std.proofs.Common.{arith};
ghost use Rattle.gw_desc.specs.Reading.{service_parm_at, service_value_at};
ghost use Rattle.gw_text.specs.Parts.{Finds};

use crate::descriptor::{ServiceParm, ServiceValue};
use bumpalo::Bump;
use gw_base::Span;
use gw_text::parts::{Parse, word};
use gw_text::{Cursor, ParseFault};

/// What stands behind `=`.
#[tactic(auto, unfolding(crate::specs::Reading::service_value_at))]
fn value<'a>(cursor: &mut Cursor<'a>) -> Result<ServiceValue<'a>, ParseFault>
    ensures { Finds result cursor.new (service_value_at cursor.old) }
{
    if cursor.is_at(b'"') {
        return Ok(ServiceValue::Quoted(Span::new(cursor.quoted()?)));
    }
    Ok(ServiceValue::Run(Span::new(cursor.run()?)))
}

impl<'a> Parse<'a> for ServiceParm<'a> {
    ghost read_at = { service_parm_at };

    ghost fits = { Prim.search arith };

    #[tactic(auto, unfolding(crate::specs::Reading::service_parm_at))]
    fn read(_bump: &'a Bump, cursor: &mut Cursor<'a>) -> Result<ServiceParm<'a>, ParseFault> {
        let name = word(cursor)?;
        if !cursor.sign(b'=') {
            return Ok(ServiceParm { name, value: None });
        }
        let value = value(cursor)?;
        Ok(ServiceParm {
            name,
            value: Some(value),
        })
    }
}
