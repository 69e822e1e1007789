// The header of a packet, put into the front of a buffer (document 01, "Packet"; RFC 3550, 6.7).
ghost use Rattle.std.specs.Prelude.{◌≡◌, ◌≤◌, length};
ghost use Rattle.octets.specs.Big.{big_of};
ghost use Rattle.octets.specs.Buffer.{over};
ghost use Rattle.plan.specs.Packet.{header};

use fields::codes::APP;
use plan::Plan;

// Puts the header of a packet of so many octets.
pub fn put_header(out: &mut [u8], plan: Plan, size: usize)
    requires { (12 ≤ length out.old) × (12 ≤ size) × (size ≤ 256) }
    ensures { out.new ≡ over (header plan.start size plan.ssrc (big_of 4 plan.letters)) out.old }
{
    out[0] = plan.start;
    out[1] = APP;
    octets::put_u16(out, 2, (size / 4 - 1) as u16);
    octets::put_u32(out, 4, plan.ssrc);
    octets::put_u32(out, 8, plan.letters);
}
