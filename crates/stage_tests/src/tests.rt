mod aftermarkets;
mod crowds;
mod eliminations;
mod floors;
mod meetings;
mod neighbours;
mod own_prices;
mod searches;
