// Orders whose codes are known, and what the codes name.
ghost use Rattle.std.specs.Prelude.{◌≡◌};
ghost use Rattle.page.specs.Codes.{coded, NamesMeasure, NamesTotal, NamesOrder};

use crate::kinds::Order;

// The measures that an order can name, by their codes on the page.
#[derive(Clone, Copy, Debug, PartialEq, Eq)]
pub enum MeasureKind {
    Synchronous = 1,
    Distance = 2,
    Area = 3,
}

// The kinds of total that an order can name, by their codes on the page.
#[derive(Clone, Copy, Debug, PartialEq, Eq)]
pub enum TotalKind {
    Sum = 1,
    Worst = 2,
    SumThenWorst = 3,
}

// An order whose two codes are known. Not one generic type with `Order`: each mention would name two types for what one name says.
#[derive(Clone, Copy, Debug, PartialEq, Eq)]
pub struct KnownOrder {
    pub measure: MeasureKind,
    pub total: TotalKind,
    pub span: u32,
    pub tolerance: u64,
}

// A number that names nothing where it stands.
#[derive(Clone, Copy, Debug, PartialEq, Eq)]
pub struct UnknownCode(pub u16);

impl TryFrom<u8> for MeasureKind {
    type Error = UnknownCode;

    ghost try_from_gives = { NamesMeasure };

    fn try_from(code: u8) -> Result<MeasureKind, UnknownCode> {
        match code {
            1 => Ok(MeasureKind::Synchronous),
            2 => Ok(MeasureKind::Distance),
            3 => Ok(MeasureKind::Area),
            _ => Err(UnknownCode(u16::from(code))),
        }
    }
}

// Beside the conversion above and not one with it: each enum has names of its own.
impl TryFrom<u8> for TotalKind {
    type Error = UnknownCode;

    ghost try_from_gives = { NamesTotal };

    fn try_from(code: u8) -> Result<TotalKind, UnknownCode> {
        match code {
            1 => Ok(TotalKind::Sum),
            2 => Ok(TotalKind::Worst),
            3 => Ok(TotalKind::SumThenWorst),
            _ => Err(UnknownCode(u16::from(code))),
        }
    }
}

impl From<KnownOrder> for Order {
    ghost from_gives = { λ known order. order ≡ coded known };

    fn from(known: KnownOrder) -> Order {
        Order {
            measure: known.measure as u8,
            total: known.total as u8,
            span: known.span,
            tolerance: known.tolerance,
        }
    }
}

impl TryFrom<Order> for KnownOrder {
    type Error = UnknownCode;

    ghost try_from_gives = { NamesOrder };

    fn try_from(order: Order) -> Result<KnownOrder, UnknownCode> {
        let measure = MeasureKind::try_from(order.measure)?;
        let total = TotalKind::try_from(order.total)?;
        Ok(KnownOrder {
            measure,
            total,
            span: order.span,
            tolerance: order.tolerance,
        })
    }
}
