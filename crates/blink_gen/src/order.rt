// An order, and its record.
ghost use Rattle.std.specs.Prelude.{◌≡◌, ◌++◌, OnOk};
ghost use Rattle.blink_gen.specs.Generator.{state_after};
ghost use Rattle.blink_gen.specs.Orders.{drawn_order, order_record};

use crate::fields::add_number;
use crate::generator::Generator;
use crate::limits::{CUSTOMERS, MONTHS, PARTS};
use crate::months::month_key;
use std::alloc::AllocError;

// An order: its number, the numbers of a customer and a part, the key of a month, how many are bought, the discount in
// percent, the price, and a hundred times what is paid.
#[derive(Drop)]
pub(crate) struct Order {
    pub(crate) number: u32,
    pub(crate) customer: u32,
    pub(crate) part: u32,
    pub(crate) date: u32,
    pub(crate) quantity: u32,
    pub(crate) discount: u32,
    pub(crate) price: u32,
    pub(crate) revenue: u32,
}

// Draws the order of this number.
pub(crate) fn draw_order(generator: &mut Generator, number: u32) -> Order
    ensures order { result ≡ drawn_order number generator.old }
    ensures state { generator.new ≡ state_after 8 generator.old }
{
    let customer = 1 + generator.draw(CUSTOMERS).min(generator.draw(CUSTOMERS));
    let part = 1 + generator.draw(PARTS).min(generator.draw(PARTS));
    let date = month_key(generator.draw(MONTHS));
    let quantity = 1 + generator.draw(50);
    let discount = generator.draw(11);
    let price = 100 + generator.draw(1000);
    Order {
        number,
        customer,
        part,
        date,
        quantity,
        discount,
        price,
        revenue: price * (100 - discount),
    }
}

// Adds the record of an order.
pub(crate) fn add_order(text: &mut Vec<u8>, order: &Order) -> Result<(), AllocError>
    ensures { OnOk result (text.new.items ≡ text.old.items ++ order_record order.now) }
{
    add_number(text, order.number, b",")?;
    add_number(text, order.customer, b",")?;
    add_number(text, order.part, b",")?;
    add_number(text, order.date, b",")?;
    add_number(text, order.quantity, b",")?;
    add_number(text, order.discount, b",")?;
    add_number(text, order.price, b",")?;
    add_number(text, order.revenue, b"\n")?;
    Ok(())
}
