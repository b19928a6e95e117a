// Stripes are filled with facts.
ghost use Rattle.std.specs.Prelude.{◌≡◌, ◌≢◌, ℕ, ◌+◌, ◌*◌, ◌<◌, ◌≤◌, length, map};
ghost use Rattle.std.specs.List.{AllByRecursion};
ghost use Rattle.fact_codec.specs.Fact.{IsLawful};
ghost use Rattle.segment_codec.specs.declared.position.TheConstants.{STRIPES};
ghost use Rattle.segment_io.specs.Stripes.{stripe_in};
ghost use Rattle.segment_writer.specs.declared.limits.TheConstants.{SHARD_FACTS, STRIPE_FACTS};
ghost use Rattle.patch_io.specs.Spelled.{fact_text};
ghost use Rattle.segment_writer.specs.PatchFilling.{text_in, IsTextOf, HoldsFacts};

use crate::limits::{SHARD_FACTS, STRIPE_FACTS};
use fact_codec::{FACT_BYTES, write_fact};
use parity72::SHARD_BYTES;
use patch_io::TableFact;
use segment_io::StripeData;

// The bytes of the fact of that number, or zeros behind the last one.
fn text_of<F: TableFact>(facts: &[F], number: usize) -> [u8; FACT_BYTES]
    requires { AllByRecursion IsLawful (map F.any facts.now) }
    ensures { IsTextOf (map F.any facts.now) number result }
{
    if number >= facts.len() {
        return [0; FACT_BYTES];
    }
    write_fact(&facts[number].to_any())
}

// Puts the bytes of a fact in their place in a shard.
fn put_in_shard(shard: &mut [u8; SHARD_BYTES], number: usize, text: &[u8; FACT_BYTES])
    requires { number < SHARD_FACTS }
    ensures here { fact_text shard.new number ≡ text.now }
    ensures others { (other : ℕ) → other < SHARD_FACTS → other ≢ number → fact_text shard.new other ≡ fact_text shard.old other }
{
    let at = FACT_BYTES * number;
    shard[at..at + FACT_BYTES].copy_from_slice(text);
}

// Puts the bytes of a fact in their place in a stripe.
fn put_text(stripe: &mut StripeData, number: usize, text: &[u8; FACT_BYTES])
    requires { number < STRIPE_FACTS }
    ensures here { text_in stripe.new number ≡ text.now }
    ensures others { (other : ℕ) → other < STRIPE_FACTS → other ≢ number → text_in stripe.new other ≡ text_in stripe.old other }
{
    let shard = &mut stripe[number / SHARD_FACTS];
    put_in_shard(shard, number % SHARD_FACTS, text);
}

// Fills the stripe of that number.
fn fill_stripe<F: TableFact>(facts: &[F], number: usize, stripe: &mut StripeData)
    requires lawful { AllByRecursion IsLawful (map F.any facts.now) }
    requires number { number < STRIPES }
    ensures { HoldsFacts (map F.any facts.now) number stripe.new }
{
    for place in 0..STRIPE_FACTS {
        let text = text_of(facts, STRIPE_FACTS * number + place);
        put_text(stripe, place, &text);
    }
}

/// Fills the first stripes of a segment with its facts, eight to a sector, and with zeros behind the last one.
pub fn fill_stripes<F: TableFact>(facts: &[F], stripes: &mut [StripeData])
    requires lawful { AllByRecursion IsLawful (map F.any facts.now) }
    requires count { length stripes.old ≤ STRIPES }
    ensures { (number : ℕ) → number < length stripes.old → HoldsFacts (map F.any facts.now) number (stripe_in stripes.new number) }
{
    for number in 0..stripes.len() {
        fill_stripe(facts, number, &mut stripes[number]);
    }
}
