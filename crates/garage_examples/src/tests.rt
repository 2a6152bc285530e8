mod bus;
mod handed_over;
