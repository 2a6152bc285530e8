//! The orders that wait.
ghost use Rattle.std.specs.Prelude.{◌≡◌, ◌+◌, ◌-◌, ◌^◌, ◌++◌, IfOk, OnErr, min};
ghost use Rattle.std.specs.Option.{option_to_list};
ghost use Rattle.tester_command.specs.Orders.{IsNumbered, TakesLine};

use crate::order::TestOrder;
use crate::order_words::OrderWords;
use std::alloc::{AllocError, Global};
use std::collections::VecDeque;

/// The most orders that wait, beside those of the command line.
const MOST_WAITING: usize = 64;

/// The most words of an order.
const MOST_WORDS: usize = 4;

/// An order with its number, from 1.
#[derive(Clone, Copy)]
pub(crate) struct NumberedOrder {
    pub(crate) number: u64,
    pub(crate) order: TestOrder,
}

/// What a line is to the orders that wait.
#[derive(Clone, Copy)]
pub(crate) enum LineOrder {
    /// Nothing: it is empty, or behind a `#`.
    Silent,
    /// It waits.
    Waits(NumberedOrder),
    /// The line of this number is none.
    Bad(u64),
    /// There is no room for it.
    Full(NumberedOrder),
    /// It is not allowed.
    Withheld(NumberedOrder),
}

/// The orders that wait, in the order in which they came.
#[derive(Drop)]
pub(crate) struct OrderQueue {
    waiting: VecDeque<NumberedOrder>,
    /// The number of the latest order.
    number: u64,
}

impl OrderQueue {
    /// Those that words spell, which are orders.
    ///
    /// Refused: where memory is.
    pub(crate) fn of_words(alloc: Global, words: &[&str]) -> Result<OrderQueue, AllocError> {
        let mut queue = OrderQueue {
            waiting: VecDeque::new(alloc),
            number: 0,
        };
        let mut words = OrderWords::new(words);
        for _ in 0..u64::MAX {
            let Ok(Some(order)) = words.next_order() else {
                return Ok(queue);
            };
            let number = queue.next_number();
            queue.waiting.push_back(NumberedOrder { number, order })?;
        }
        Ok(queue)
    }

    /// Takes a line of a file of orders, with its end.
    ///
    /// Refused: where memory is; then the order is lost.
    pub(crate) fn take_line(&mut self, line: &[u8], yes: bool) -> Result<LineOrder, AllocError>
        ensures taken { IfOk result (λ l. TakesLine l self.old.waiting.items self.new.waiting.items) }
        ensures numbered { IfOk result (λ l. IsNumbered l self.old.number self.new.number) }
        ensures err { OnErr result (self.new.waiting.items ≡ self.old.waiting.items) }
    {
        let text = std::str::from_utf8(line).unwrap_or("?").trim_end();
        if script_line::is_silent(text) {
            return Ok(LineOrder::Silent);
        }
        let number = self.next_number();
        let Some(order) = order_of_line(text) else {
            return Ok(LineOrder::Bad(number));
        };
        let order = NumberedOrder { number, order };
        if order.order.clears_all() && !yes {
            return Ok(LineOrder::Withheld(order));
        }
        if self.waiting.len() >= MOST_WAITING {
            return Ok(LineOrder::Full(order));
        }
        self.waiting.push_back(order)?;
        Ok(LineOrder::Waits(order))
    }

    /// The first, which waits no more.
    pub(crate) fn next(&mut self) -> Option<NumberedOrder>
        ensures first { self.old.waiting.items ≡ option_to_list result ++ self.new.waiting.items }
        ensures number { self.new.number ≡ self.old.number }
    {
        self.waiting.pop_front()
    }

    /// Whether none waits.
    pub(crate) fn is_empty(&self) -> bool {
        self.waiting.is_empty()
    }

    fn next_number(&mut self) -> u64
        ensures counted { self.new.number ≡ min (self.old.number + 1) (2 ^ 64 - 1) }
        ensures answered { result ≡ self.new.number }
        ensures same { self.new.waiting ≡ self.old.waiting }
    {
        self.number = self.number.saturating_add(1);
        self.number
    }
}

/// The order that a line spells, if it is one, and nothing behind it.
fn order_of_line(text: &str) -> Option<TestOrder> {
    let mut words = [""; MOST_WORDS];
    let mut count = 0;
    for word in text.split_ascii_whitespace() {
        *words.get_mut(count)? = word;
        count += 1;
    }
    let mut words = OrderWords::new(words.get(..count)?);
    let order = words.next_order().ok()??;
    if words.is_at_end() { Some(order) } else { None }
}
